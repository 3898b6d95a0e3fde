//! What a rule's text says of each part, as laws.
ghost use Rattle.std.specs.Prelude.{◌≡◌, List, ℕ, not, Ok};
ghost use Rattle.ics_values.specs.declared.part_name.ListName.{ListName};
ghost use Rattle.ics_values.specs.declared.part_name.PartName.TheVariants as part;
ghost use Rattle.ics_fields.specs.RuleParts.{RuleParts};
ghost use Rattle.ics_values.specs.RuleTexts.{has_part, parts_of};
ghost use Rattle.ics_values.specs.Rules.{rule_of};
ghost use Rattle.ics_values.specs.RuleLaws.{Says, lists_nothing};

/// The rule of a text has the value of each part of the text, and its lists have exactly the numbers that are written there.
pub fn rule_says()
    ensures { (text : List ℕ) (rule : RuleParts) → rule_of text ≡ Ok rule → Says (parts_of text) rule }
{}

/// A rule has no number in a list exactly where its text does not have the part.
pub fn absent_is_empty()
    ensures { (text : List ℕ) (rule : RuleParts) → rule_of text ≡ Ok rule → (list : ListName)
        → lists_nothing list rule ≡ not (has_part (part.List list) (parts_of text)) }
{}
