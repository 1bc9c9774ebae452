//! How the numbers of a round are cut: half of the rounds have all ranges in one list, and half have the lists of seven
//! regions.
use list_cuts::Cut;

/// The lists of a round: one, or those of seven regions in every other round. Slots and pages are dealt out to the
/// regions one by one, so a range of one of them takes its region's list alone, as some third of the ranges of slots do
/// and each fault; any other takes several.
pub fn cut_of(round: u64) -> Cut {
    if round % 2 == 0 {
        return Cut::one();
    }
    let Ok(cut) = Cut::of(7, 0) else {
        unreachable!()
    };
    cut
}
