ghost use Rattle.sf_script.specs.GrammarLaws.{ReadsTheGrammar, HasColumns};

/// The command of a line is read exactly where the line is of one of the forms.
pub fn commands_are_of_forms()
    ensures { ReadsTheGrammar }
{}

/// The columns at which some lines leave the grammar.
pub fn columns_of_lines()
    ensures { HasColumns }
{}
