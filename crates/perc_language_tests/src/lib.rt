//! Tests of script lines, report lines and pictures of reports.
#![tactic(auto)]

#[cfg(test)]
mod picture;
#[cfg(test)]
mod report_line;
#[cfg(test)]
mod script_line;
