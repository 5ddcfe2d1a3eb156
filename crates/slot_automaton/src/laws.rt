ghost use Rattle.slot_automaton.specs.Laws.{EmptyIsNormal, PartsAreNormal, BlockedAreClosing, NormalGrows, BlockedGrow};

/// The laws of normal words, for whoever reasons about them: a call does nothing and brings them.
pub fn normal_word_laws()
    ensures empty { EmptyIsNormal }
    ensures parts { PartsAreNormal }
    ensures blocked { BlockedAreClosing }
    ensures grows { NormalGrows }
    ensures steps { BlockedGrow }
{}
