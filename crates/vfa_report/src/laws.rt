//! What lines tell their readers.

ghost use Rattle.std.specs.Prelude.{ℕ, List};
ghost use Rattle.vfa_fact.specs.declared.cell.Parts.{Parts};
ghost use Rattle.vfa_xfer.specs.AnyFacts.{AreCells};
ghost use Rattle.vfa_report.specs.FactLines.{fact_lines};
ghost use Rattle.vfa_report.specs.Showing.{ShowFact};

/// A law: the lines of a fact show the digits that all its numbers have, its arc, and whether the value is never poison.
pub fn lines_show_facts()
    ensures { (shown : List ℕ) (parts : Parts) → AreCells parts → ShowFact shown parts (fact_lines shown parts) }
{}
