//! Laws about scripts. The functions do nothing: what they ensure is the law.
ghost use Rattle.std.specs.Prelude.{◌≡◌, ◌↔◌, ℕ, List, Some};
ghost use Rattle.perc_script_line.specs.Script.{Script, script_of, Spells, IsScript};

/// A line is read as what it spells, and as nothing else: the octets spell a line with fields in their bounds exactly
/// where that line is read.
pub fn one_spelling()
    ensures { (octets : List ℕ) (script : Script) → (script_of octets ≡ Some script) ↔ (Spells octets script × IsScript script) }
{}
