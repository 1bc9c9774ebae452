//! Where each word of the list lock stands, and the code of next words. The head is the first word; then come the
//! epochs of the seats, then four words for each node, then the words of the layer above. All places differ, so a
//! write of one word leaves every other as it is. This project's own profile; the mark in the low bit of a node's
//! next word follows Harris 2001 and Kogan, Dice and Issa 2020.
ghost use Rattle.std.specs.Prelude.{◌≡◌, ℕ, suc, Some, None, ◌+◌, ◌*◌, ◌/◌, ◌%◌, ◌^◌, ◌<◌, ◌≤◌, ◌==◌, IsTrue, ◌↔◌};
ghost use Rattle.lock_core.specs.Words.{cell_of, cell_place, epoch_place, lo_place, hi_place, home_place, client_place, word_count, word_of, node_of};

use std::marker::Model;

/// Nodes of one seat. Node n belongs to seat n / 16.
pub const NODES: u32 = 16;

/// The places of the words of a lock of 1 to 16 seats with at most 2^20 words of the layer above, its client words.
/// Seats, nodes, client words and places are counted from 0.
#[derive(Clone, Copy, Debug, PartialEq, Eq)]
pub struct Layout {
    seats: u32,
    client: u32,
}

impl Model for Layout {
    ghost use Rattle.std.specs.Prelude.{◌<◌, ◌≤◌, ◌^◌};
    ghost use Rattle.lock_core.specs.Places.{Counts};

    ghost Value = { Counts };

    ghost view = { λ l. record { seats = l.seats; client = l.client } };

    ghost invariant = { λ l. (0 < l.seats) × (l.seats ≤ 16) × (l.client ≤ 2 ^ 20) };

    ghost inverse = { λ c. record { seats = c.seats; client = c.client } };
}

impl Layout {
    /// The layout for so many seats, from 1 to 16, and so many client words, at most 2^20.
    #[inline(always)]
    pub fn of(seats: u32, client: u32) -> Layout
        requires some { 0 < seats }
        requires few { seats ≤ 16 }
        requires client { client ≤ 2 ^ 20 }
        ensures seats { result.seats ≡ seats }
        ensures client { result.client ≡ client }
    {
        Layout { seats, client }
    }

    /// The place of the head.
    #[inline(always)]
    pub fn head(&self) -> u32
        ensures { result ≡ cell_place self.now.seats 0 }
    {
        0
    }

    /// The place of the epoch of seat `s`.
    #[inline(always)]
    pub fn epoch(&self, s: u32) -> u32
        requires { s < self.now.seats }
        ensures { result ≡ epoch_place s }
    {
        let _ = &self.seats;
        1 + s
    }

    /// The place of the lower end of node `n`.
    #[inline(always)]
    pub fn lo(&self, n: u32) -> u32
        requires { n < 16 * self.now.seats }
        ensures { result ≡ lo_place self.now.seats n }
    {
        self.seats + 1 + 4 * n
    }

    /// The place of the higher end and the mode of node `n`.
    #[inline(always)]
    pub fn hi(&self, n: u32) -> u32
        requires { n < 16 * self.now.seats }
        ensures { result ≡ hi_place self.now.seats n }
    {
        self.seats + 2 + 4 * n
    }

    /// The place of the next word of node `n`.
    #[inline(always)]
    pub fn next(&self, n: u32) -> u32
        requires { n < 16 * self.now.seats }
        ensures { result ≡ cell_place self.now.seats (suc n) }
    {
        self.seats + 3 + 4 * n
    }

    /// The place of the home word of node `n`.
    #[inline(always)]
    pub fn home(&self, n: u32) -> u32
        requires { n < 16 * self.now.seats }
        ensures { result ≡ home_place self.now.seats n }
    {
        self.seats + 4 + 4 * n
    }

    /// The place of the word that names what stands behind a node, or behind the head.
    #[inline(always)]
    pub fn cell(&self, prev: Option<u32>) -> u32
        requires { (n : ℕ) → prev ≡ Some n → n < 16 * self.now.seats }
        ensures { result ≡ cell_place self.now.seats (cell_of prev) }
    {
        match prev {
            None => self.head(),
            Some(n) => self.next(n),
        }
    }

    /// The place of client word `i`.
    #[inline(always)]
    pub fn client(&self, i: u32) -> u32
        requires { i < self.now.client }
        ensures { result ≡ client_place self.now.seats i }
    {
        1 + 65 * self.seats + i
    }

    /// How many words there are.
    #[inline(always)]
    pub fn words(&self) -> u32
        ensures { result ≡ word_count self.now.seats + self.now.client }
    {
        1 + 65 * self.seats + self.client
    }
}

/// The next word that names node `n`, with the mark or without.
#[inline(always)]
pub fn node_word(n: u32, marked: bool) -> u64
    ensures { result ≡ word_of n marked }
{
    2 * (n as u64 + 1) + marked as u64
}

/// The node that a next word names, if it names one, and whether the word has the mark. Nodes have numbers below
/// 2^32, so a word above all their codes names none.
#[inline(always)]
pub fn read_word(w: u64) -> (Option<u32>, bool)
    ensures node { w < 2 ^ 33 + 2 → result.0 ≡ node_of w }
    ensures none { 2 ^ 33 + 2 ≤ w → result.0 ≡ None }
    ensures mark { result.1 ≡ (w % 2 == 1) }
{
    let target = w / 2;
    let node = if target == 0 || target > 1 << 32 {
        None
    } else {
        Some((target - 1) as u32)
    };
    (node, w % 2 == 1)
}
