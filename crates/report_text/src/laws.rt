//! A law of texts that are shown one after another.

ghost use Rattle.report_text.specs.Safe.{TextsJoin};

/// Texts that are shown one after another are safe as one text, if the last line of each has white space alone, as in
/// those that `take` returns.
pub fn texts_join()
    ensures { TextsJoin }
{}
