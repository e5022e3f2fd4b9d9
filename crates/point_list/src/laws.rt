//! Theorems about point lists and the CSV texts that encode them.
ghost use Rattle.point_list.specs.Laws.{FaultlessTextsSpell, SpelledListIsOne};
ghost use Rattle.point_list.specs.Laws.{SpelledListsAreLawful};

/// Theorem: each CSV text either has faulty rows or encodes exactly one point list, which is valid.
pub fn texts_spell_one_list()
    ensures spelled { FaultlessTextsSpell }
    ensures one { SpelledListIsOne }
    ensures lawful { SpelledListsAreLawful }
{}
