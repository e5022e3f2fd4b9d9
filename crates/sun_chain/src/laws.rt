//! Theorems: the tables of SunSpec models are valid, and each memory image (the words read from a
//! device) has exactly one complete chain of models or exactly one fault.
ghost use Rattle.sun_chain.specs.Laws.{ChainHasNoFault, ChainIsOne, ChainOrFault, FaultIsOne};
ghost use Rattle.sun_chain.specs.TableRules.{TablesAreLawful};

/// Theorem: the table of each known model is valid. Its points are in order of offset and inside
/// the model, and each scale point exists.
pub fn tables_are_lawful()
    ensures { TablesAreLawful }
{}

/// Theorem: each memory image (the words read from a device) has either exactly one complete chain
/// of models, or exactly one fault. Lack of memory does not count as a fault.
pub fn chain_or_fault_is_one()
    ensures chain_or_fault { ChainOrFault }
    ensures one_chain { ChainIsOne }
    ensures no_fault { ChainHasNoFault }
    ensures one_fault { FaultIsOne }
{}
