ghost use Rattle.sf_grammar.specs.Forms.{FormsReach};
ghost use Rattle.sf_grammar.specs.ReachLaws.{NamesReach, NumbersReach, IntegersReach, WordsReach, MachinesReach, HasOneColumn};

/// How far a text is a beginning of a name, a number, an integer or a fixed word.
pub fn words_reach()
    ensures names { NamesReach }
    ensures numbers { NumbersReach }
    ensures integers { IntegersReach }
    ensures words { WordsReach }
{}

/// How far a text is a beginning of one that is cut at separators and read part by part, by the states of a machine.
pub fn parts_reach<S>()
    ensures { MachinesReach S }
{}

/// How far a text is a beginning of a line of some forms, whatever the kinds of their words.
pub fn forms_reach<K>()
    ensures { FormsReach K }
{}

/// A text leaves a language at one column at most.
pub fn columns_are_unique()
    ensures { HasOneColumn }
{}
