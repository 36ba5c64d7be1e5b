//! The caller that the page on calling `report_text` shows.

ghost use Rattle.std.specs.Prelude.{false, IfOk, string_bytes};
ghost use Rattle.std.specs.Str.{chars};
ghost use Rattle.report_text.specs.Safe.{Safe};

use report_text::{ReportText, Style};
use std::alloc::{AllocError, Global};

/// Returns the name of a failed test and its output. It is safe to show in a log, whatever the name and the output are.
pub fn failed_test(alloc: Global, name: &str, output: &str) -> Result<String, AllocError>
    ensures safe { IfOk result (λ shown. Safe false (chars (string_bytes shown))) }
{
    let mut text = ReportText::new(alloc);
    text.push_style(Style::BoldRed);
    text.push("failed: ");
    text.push_style(Style::Reset);
    text.push_line(name);
    text.push("\n");
    text.push_coloured(output);
    text.finish()
}
