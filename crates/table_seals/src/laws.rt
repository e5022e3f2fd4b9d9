//! Theorems that justify comparing a seal (digests of earlier records) with the records of the same
//! file at a later time. The contract of each function is a theorem.
ghost use Rattle.table_seals.specs.Laws.{FirstEntriesStay, VoidsStay, PollsStay};

/// Theorem: if lines are added to a meter's journal (its history), the earlier entries are still
/// its first entries, and a seal digests them as the same text.
pub fn first_entries_stay()
    ensures { FirstEntriesStay }
{}

/// Theorem: if lines are added to a meter's journal (its history), every voided (cancelled) entry
/// is still voided.
pub fn voids_stay()
    ensures { VoidsStay }
{}

/// Theorem: after further polls and outcomes of pending polls are recorded, the text that a seal
/// digested for the earlier polls can still be computed.
pub fn polls_stay()
    ensures { PollsStay }
{}
