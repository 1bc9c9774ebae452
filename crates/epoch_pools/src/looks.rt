//! The looks of a refill, made with the token alone. What came home stands in the list of homes while the looks are
//! made, and the barrier begins anew for all of it once, behind the last of them. A reader may rely on the closed line
//! of `specs/Looking.antt`. Homes and the barrier are this project's own profile, after the epochs of Fraser 2004.
ghost use Rattle.std.specs.Prelude.{◌≡◌, ◌≢◌, ◌+◌, ◌*◌, ◌<◌, ◌≤◌, ◌==◌, if◌then◌else◌, ℕ, [], ◌∷◌, ◌++◌, not, true, false, length};
ghost use Rattle.std.specs.Bool.{OnTrue, OnFalse};
ghost use Rattle.view_lists.specs.Counted.{times};
ghost use Rattle.lock_core.specs.declared.steps.Step.TheVariants.{ReadEpoch};
ghost use Rattle.lock_core.specs.Words.{word_count};
ghost use Rattle.lock_core.specs.Views.{home_read};
ghost use Rattle.epoch_pools.specs.Hands.{IsHandView};
ghost use Rattle.epoch_pools.specs.Beside.{given_back, may_give_back};
ghost use Rattle.epoch_pools.specs.Running.{Enables, MayRest, line_for, part_after, Told};
ghost use Rattle.epoch_pools.specs.Taking.{IsFree, IsLooking, IsHomeLook, IsHomeKnown, IsEpochLook};
ghost use Rattle.epoch_pools.specs.Looking.{IsAwaited, begun, come_back, homes_read, IsBeside};

use crate::list::List;
use crate::token::Token;
use lock_core::{Act, Guard, Layout, NODES, Step, View};
use std::sync::ledger::Ledger;
use view_lists::Nodes;
use word_rows::Steps;

/// Whether the node stands at its own place of sixteen, where it is while they all are there in order.
#[inline(always)]
fn is_in_place(list: &[u32], node: u32) -> bool
    ensures { OnTrue result (1 ≤ times node list.now) }
{
    let place = (node % NODES) as usize;
    place < list.len() && list[place] == node
}

/// Whether the node is in the list, wherever it stands.
#[inline(never)]
fn is_among(list: &[u32], node: u32) -> bool
    ensures { result ≡ not (times node list.now == 0) }
{
    list.contains(&node)
}

/// Whether the node is in the list. It is looked for at its own place first.
#[inline(always)]
fn is_in(list: &[u32], node: u32) -> bool
    ensures { result ≡ not (times node list.now == 0) }
{
    is_in_place(list, node) || is_among(list, node)
}

/// Whether the node is a used one that isn't among the homes. Where the homes are known not to have it, they aren't
/// asked.
#[inline(always)]
fn is_awaited(used: &[u32], homes: &Nodes, fresh: bool, node: u32) -> bool
    requires fresh { fresh ≡ true → times node homes.now ≡ 0 }
    ensures yes { OnTrue result (IsAwaited used.now homes.now node) }
    ensures no { OnFalse result (IsAwaited used.now homes.now node → ⊥) }
{
    is_in(used, node) && (fresh || !homes.has(node))
}

/// Begins the barrier anew for the nodes that came home; with one seat alone they are ready at once.
pub(crate) fn begin_anew(view: &mut View, seats: u32)
    requires notes { length view.old.notes ≡ seats }
    requires passed { length view.old.passed ≡ seats }
    requires room { length view.old.ready + length view.old.homes ≤ 16 }
    ensures { view.new ≡ begun seats view.old }
{
    view.notes.clear();
    view.passed.clear();
    if seats == 1 {
        view.ready.join(&view.homes);
        view.used.leave_out(&view.homes);
        view.homes.clear();
    }
}

impl<G: Guard> List<G> {
    /// A load that is this step.
    #[inline(always)]
    fn get(&self, token: &mut Token<G>, step: Step, word: u32) -> u64
        requires table { token.old.table ≡ self.now.table }
        requires enabled { Enables token.old.part step }
        requires rest { MayRest (may_give_back G.is_at_rest) token.old.part step }
        requires place { (word ≡ (line_for token.old.part step).place) × (word < word_count token.old.part.seats) }
        requires load { (w : ℕ) → (line_for token.old.part step).write w ≡ w }
        ensures table { token.new.table ≡ token.old.table }
        ensures part { token.new.part ≡ part_after (given_back G.rested) token.old.part step result }
        ensures told { Told self.now.seats token.old.part step result }
    {
        self.make_step(token, step, word, Act::Load)
    }

    /// ReadHome with a token. It returns what the home word of the node was.
    #[inline(always)]
    fn read_home(&self, token: &mut Token<G>, node: u32) -> u64
        requires table { token.old.table ≡ self.now.table }
        requires sound { IsHandView token.old.part }
        requires free { IsFree token.old.part.core }
        requires awaited { IsAwaited token.old.part.core.used token.old.part.core.homes node }
        ensures table { token.new.table ≡ token.old.table }
        ensures sound { IsHandView token.new.part }
        ensures core { token.new.part.core ≡ home_read token.old.part.seats token.old.part.core node result }
        ensures on { IsLooking token.old.part token.new.part }
        ensures looked { IsHomeLook token.old.part token.new.part node }
        ensures taken { token.new.part.trace.taken ≡ token.old.part.trace.taken + 1 }
        ensures room { length token.old.part.core.ready + length token.old.part.core.homes < 16 }
    {
        let place = Layout::of(token.seat_count(), 0).home(node);
        self.get(token, Step::ReadHome { node }, place)
    }

    /// Reads the home word of a node, where it is used and isn't among the homes, and puts it to them where it came
    /// home. Whether it did. Where the list of homes was fresh, so empty when the looks began, the node isn't in it.
    #[inline(always)]
    fn look_home<L: Ledger>(
        &self,
        token: &mut Token<G>,
        used: &[u32],
        homes: &mut Nodes,
        fresh: bool,
        node: u32,
        steps: &mut Steps<L>,
    ) -> bool
        requires table { token.old.table ≡ self.now.table }
        requires sound { IsHandView token.old.part }
        requires free { IsFree token.old.part.core }
        requires beside { IsBeside token.old.part.core used.now homes.old }
        requires fresh { fresh ≡ true → times node homes.old ≡ 0 }
        ensures table { token.new.table ≡ token.old.table }
        ensures sound { IsHandView token.new.part }
        ensures core { token.new.part.core ≡ (if result then come_back token.old.part.seats token.old.part.core node else token.old.part.core) }
        ensures homes { homes.new ≡ (if result then homes.old ++ node ∷ [] else homes.old) }
        ensures on { IsLooking token.old.part token.new.part }
        ensures looked { IsHomeLook token.old.part token.new.part node }
        ensures taken { token.new.part.trace.taken ≤ token.old.part.trace.taken + 1 }
        ensures counted { steps.new + token.old.part.trace.taken ≡ steps.old + token.new.part.trace.taken }
    {
        if !is_awaited(used, homes, fresh, node) {
            return false;
        }
        let found = self.read_home(token, node);
        steps.tick();
        if found != 1 {
            return false;
        }
        homes.push(node);
        true
    }

    /// Reads the home words of all used nodes that aren't among the homes, the lowest node first, and puts those that
    /// came home to the homes. Whether one did.
    #[inline(never)]
    pub(crate) fn read_homes<L: Ledger>(
        &self,
        token: &mut Token<G>,
        used: &[u32],
        homes: &mut Nodes,
        steps: &mut Steps<L>,
    ) -> bool
        requires table { token.old.table ≡ self.now.table }
        requires sound { IsHandView token.old.part }
        requires free { IsFree token.old.part.core }
        requires used { used.now ≡ token.old.part.core.used }
        requires homes { homes.old ≡ token.old.part.core.homes }
        ensures table { token.new.table ≡ token.old.table }
        ensures sound { IsHandView token.new.part }
        ensures core { token.new.part.core ≡ homes_read token.old.part.seats token.old.part.core homes.new result }
        ensures none { result ≡ false → homes.new ≡ homes.old }
        ensures room { length token.old.part.core.ready + length homes.new ≤ 16 }
        ensures on { IsLooking token.old.part token.new.part }
        ensures known { (x : ℕ) → 16 * token.old.part.number ≤ x → x < 16 * token.old.part.number + 16 → IsHomeKnown token.old.part token.new.part x }
        ensures taken { token.new.part.trace.taken ≤ token.old.part.trace.taken + 16 }
        ensures counted { steps.new + token.old.part.trace.taken ≡ steps.old + token.new.part.trace.taken }
    {
        let _seats = token.seat_count();
        let first = NODES * token.number;
        let fresh = homes.is_empty();
        let mut came = false;
        'nodes: for node in first..first + NODES {
            if self.look_home(token, used, homes, fresh, node, steps) {
                came = true;
            }
        }
        came
    }

    /// ReadEpoch with a token, of another seat, while nodes wait for the barrier. It returns what the epoch was.
    #[inline(always)]
    pub(crate) fn read_epoch(&self, token: &mut Token<G>, other: u32) -> u64
        requires table { token.old.table ≡ self.now.table }
        requires sound { IsHandView token.old.part }
        requires free { IsFree token.old.part.core }
        requires homes { token.old.part.core.homes ≢ [] }
        requires there { other < token.old.part.seats }
        requires other { other ≢ token.old.part.number }
        ensures table { token.new.table ≡ token.old.table }
        ensures sound { IsHandView token.new.part }
        ensures part { token.new.part ≡ part_after (given_back G.rested) token.old.part (ReadEpoch other) result }
        ensures on { IsLooking token.old.part token.new.part }
        ensures looked { IsEpochLook token.old.part token.new.part other }
    {
        let place = Layout::of(token.seats, 0).epoch(other);
        self.get(token, Step::ReadEpoch { seat: other }, place)
    }
}
