//! Touching a page: its words are looked at one after another, from `page mod room` on and round the end, until one has
//! the page or is free. A word that has a page keeps it, so what a call has looked at stays as it was; and a call that
//! may be made always finds a free word, because every other seat has written at most its quota.
ghost use Rattle.std.specs.Prelude.{◌≡◌, ◌<◌, ◌≤◌, ◌+◌, ◌*◌, ◌^◌, ◌⊎◌, ◌++◌, ◌∷◌, [], true, false, length, None};
ghost use Rattle.page_types.specs.declared.TheConstants.{LIMIT};
ghost use Rattle.page_touch.specs.Touches.{IsTouch, shown};
ghost use Rattle.page_touch.specs.Probes.{MayProbe, IsProbe, IsFound};

use crate::plays::{Probes, Probing};
use crate::table::{Token, TouchSeat, Touches};
use std::marker::Brand;
use std::sync::ledger::{Blank, Ledger};
use word_rows::Steps;

/// How a touch was answered. A place is the number of a word, counted from 0.
#[derive(Clone, Copy, Debug, PartialEq, Eq)]
pub enum Touched {
    /// This call wrote the page at that place, so it is the first one over all threads.
    First { place: u32 },
    /// This call read the page at that place.
    Seen { place: u32 },
}

/// What a look at one word found.
#[derive(Clone, Copy, Debug, PartialEq, Eq)]
pub enum Looked {
    /// The word was free, and the page was written.
    Wrote,
    /// The page stands there.
    Stands,
    /// Another page stands there.
    Other,
}

impl Touches {
    /// A load of a word, for a page that is looked for.
    fn load_at<D: Probing>(&self, token: &mut Token, page: u64, place: u32) -> u64
        requires picked { (D.room ≡ self.now.room) × (D.page ≡ page) × (D.puts ≡ false) }
        requires table { token.old.table ≡ self.now.table }
        requires may { MayProbe self.now.room page place token.old.own }
        ensures table { token.new.table ≡ token.old.table }
        ensures made { IsProbe self.now.room page false place token.old.own result token.new.own }
    {
        self.table
            .shared
            .load::<Probes<D>>(&mut token.seat, place as usize)
    }

    /// An exchange of a word from 0 to the page plus 1.
    fn put_at<D: Probing>(&self, token: &mut Token, page: u64, place: u32) -> u64
        requires picked { (D.room ≡ self.now.room) × (D.page ≡ page) × (D.puts ≡ true) }
        requires table { token.old.table ≡ self.now.table }
        requires page { page + 1 < 2 ^ 64 }
        requires may { MayProbe self.now.room page place token.old.own }
        ensures table { token.new.table ≡ token.old.table }
        ensures made { IsProbe self.now.room page true place token.old.own result token.new.own }
    {
        self.table
            .shared
            .compare_exchange::<Probes<D>>(&mut token.seat, place as usize, 0, page + 1)
    }

    /// Looks at one word, and puts the page there if it is free. An exchange that failed is a look too, so a word takes
    /// two steps at most.
    fn look<L: Ledger>(
        &self,
        token: &mut Token,
        page: u64,
        place: u32,
        steps: &mut Steps<L>,
    ) -> Looked
        requires table { token.old.table ≡ self.now.table }
        requires page { page + 1 < 2 ^ 64 }
        requires may { MayProbe self.now.room page place token.old.own }
        ensures table { token.new.table ≡ token.old.table }
        ensures found { IsFound self.now.room page place token.old.own result token.new.own }
        ensures bound { token.new.own.taken ≤ token.old.own.taken + 2 }
        ensures counted { steps.new + token.old.own.taken ≡ steps.old + token.new.own.taken }
    {
        let found = self.load_at::<Brand>(token, page, place);
        steps.tick();
        if found == page + 1 {
            return Looked::Stands;
        }
        if found != 0 {
            return Looked::Other;
        }
        let found = self.put_at::<Brand>(token, page, place);
        steps.tick(); // of the exchange
        if found == 0 {
            Looked::Wrote
        } else if found == page + 1 {
            Looked::Stands
        } else {
            Looked::Other
        }
    }

    /// The word after this one, round the end.
    fn next(&self, place: u32) -> u32
        requires { place < self.now.room }
        ensures within { result < self.now.room }
        ensures next { (result ≡ place + 1) ⊎ (result + self.now.room ≡ place + 1) }
    {
        let room = self.room;
        let next = place + 1;
        if next == room { 0 } else { next }
    }

    /// Looks for a page until it stands in a word.
    fn find<L: Ledger>(&self, token: &mut Token, page: u64, steps: &mut Steps<L>) -> Touched
        requires table { token.old.table ≡ self.now.table }
        requires page { page + 1 < 2 ^ 64 }
        requires fresh { token.old.own.looking ≡ None }
        requires left { length token.old.own.touched < token.old.own.quota }
        ensures table { token.new.table ≡ token.old.table }
        ensures quota { token.new.own.quota ≡ token.old.own.quota }
        ensures touched { token.new.own.touched ≡ token.old.own.touched ++ page ∷ [] }
        ensures over { token.new.own.looking ≡ None }
        ensures touch { IsTouch self.now.room page (shown token.old) result (shown token.new) }
        ensures bound { token.new.own.taken ≤ token.old.own.taken + 2 * self.now.room }
        ensures counted { steps.new + token.old.own.taken ≡ steps.old + token.new.own.taken }
    {
        let mut place = (page % self.room as u64) as u32;
        'words: loop {
            match self.look(token, page, place, steps) {
                Looked::Wrote => return Touched::First { place },
                Looked::Stands => return Touched::Seen { place },
                Looked::Other => place = self.next(place),
            }
        }
    }

    /// Touches a page, with a counter made of that blank.
    fn touch_with<L: Ledger>(&self, seat: &mut TouchSeat, page: u64, blank: Blank) -> Touched
        requires blank { (blank.name ≡ L.name) × (blank.parts ≡ L.parts) × (0 < L.parts) }
        requires table { seat.old.table ≡ self.now.table }
        requires page { page < LIMIT }
        requires left { length seat.old.touched < seat.old.quota }
        ensures table { seat.new.table ≡ seat.old.table }
        ensures quota { seat.new.quota ≡ seat.old.quota }
        ensures touched { seat.new.touched ≡ seat.old.touched ++ page ∷ [] }
        ensures touch { IsTouch self.now.room page seat.old result seat.new }
        ensures bound { seat.new.taken ≤ seat.old.taken + 2 * self.now.room }
    {
        let mut steps = Steps::<L>::new(blank);
        self.touch(seat, page, &mut steps)
    }

    /// Touches a page, as `touch`, for a caller that counts no steps.
    pub fn touch_uncounted(&self, seat: &mut TouchSeat, page: u64) -> Touched
        requires table { seat.old.table ≡ self.now.table }
        requires page { page < LIMIT }
        requires left { length seat.old.touched < seat.old.quota }
        ensures table { seat.new.table ≡ seat.old.table }
        ensures quota { seat.new.quota ≡ seat.old.quota }
        ensures touched { seat.new.touched ≡ seat.old.touched ++ page ∷ [] }
        ensures touch { IsTouch self.now.room page seat.old result seat.new }
        ensures bound { seat.new.taken ≤ seat.old.taken + 2 * self.now.room }
    {
        self.touch_with::<Brand>(seat, page, Blank::new(1))
    }

    /// Touches a page, below `LIMIT`, with a seat of this set whose `left` is above 0.
    ///
    /// `First` comes exactly where this call's exchange wrote the page, and `Seen` exactly where this call read it. It
    /// takes no memory, waits for nobody, and makes at most twice as many steps as the set has words.
    pub fn touch<L: Ledger>(&self, seat: &mut TouchSeat, page: u64, steps: &mut Steps<L>) -> Touched
        requires table { seat.old.table ≡ self.now.table }
        requires page { page < LIMIT }
        requires left { length seat.old.touched < seat.old.quota }
        ensures table { seat.new.table ≡ seat.old.table }
        ensures quota { seat.new.quota ≡ seat.old.quota }
        ensures touched { seat.new.touched ≡ seat.old.touched ++ page ∷ [] }
        ensures touch { IsTouch self.now.room page seat.old result seat.new }
        ensures bound { seat.new.taken ≤ seat.old.taken + 2 * self.now.room }
        ensures counted { steps.new + seat.old.taken ≡ steps.old + seat.new.taken }
    {
        let touched = self.find(&mut seat.token, page, steps);
        seat.left -= 1;
        touched
    }
}
