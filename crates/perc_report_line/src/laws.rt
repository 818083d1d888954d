//! Laws about reports. The functions do nothing: what they ensure is the law.
ghost use Rattle.std.specs.Prelude.{◌≡◌, ◌↔◌, ◌++◌, ◌∷◌, [], ℕ, List, Some};
ghost use Rattle.perc_report_line.specs.Report.{Report, report_of, report_line, report_text, IsReport};

/// A line is read as what it spells, and as nothing else.
pub fn one_spelling()
    ensures { (line : List ℕ) (report : Report) → (report_of line ≡ Some report) ↔ ((line ≡ report_line report) × IsReport report) }
{}

/// What is written is read again, without its line feed.
pub fn read_again()
    ensures { (report : Report) (line : List ℕ) → IsReport report → report_text report ≡ line ++ 10 ∷ [] → report_of line ≡ Some report }
{}

/// Two lines with one spelling are one.
pub fn told_apart()
    ensures { (one other : Report) → IsReport one → IsReport other → report_text one ≡ report_text other → one ≡ other }
{}
