//! What holds of every generated script. The functions do nothing: their contracts are the laws.
ghost use Rattle.std.specs.Prelude.{◌≡◌, ◌≤◌, ℕ, Some, map};
ghost use Rattle.perc_base.specs.Lines.{lines_of};
ghost use Rattle.perc_script_line.specs.Script.{script_of, script_text};
ghost use Rattle.perc_generator.specs.Generator.{made_lines, made_script};
ghost use Rattle.perc_run.specs.Delivering.{by_cipher};
ghost use Rattle.perc_run.specs.Report.{run_by};
ghost use Rattle.perc_generated.specs.Ends.{IsNotRefused};

use perc_headline::laws::always_orderly;
use perc_script_line::laws::one_spelling;

/// The octets of a generated script are its lines, each in its one spelling, and each line is read as what it says.
pub fn read_as_made()
    ensures lines { (rounds : ℕ) → rounds ≤ 1000 → lines_of (made_script rounds) ≡ map script_text (made_lines rounds) }
    ensures read { (rounds : ℕ) → rounds ≤ 1000 → map script_of (lines_of (made_script rounds)) ≡ map Some (made_lines rounds) }
{
    // Each line is read from its one spelling.
    one_spelling();
}

/// No line of a generated script is refused: each is done, up to the first delivery, if there is one, in which something opens that nobody
/// made.
pub fn never_refused()
    ensures { (rounds : ℕ) → rounds ≤ 1000 → IsNotRefused (run_by by_cipher (made_script rounds)).end }
{
    // What a line leaves is in order again.
    always_orderly();
    // Each line is read from its one spelling.
    one_spelling();
}
