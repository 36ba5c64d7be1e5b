//! Laws of the definitions that contracts cite, for the proofs of callers. Each is a function that
//! does nothing, and its contract is the law.

ghost use Rattle.output_slice.specs.Laws.{HeadsHaveOneEnd, TakenHeadsExist, TakenHeadsDivide, LinesExist, LinesAreCut, OneExtraction, LossyTextIsExact};

/// Two heads that begin at the same offset end at the same offset.
pub fn heads_have_one_end()
    ensures { HeadsHaveOneEnd }
{}

/// Any bytes have exactly one list of taken heads.
pub fn taken_heads_exist()
    ensures { TakenHeadsExist }
{}

/// At a line start that no head crosses, the taken heads divide into those before it and those
/// after it.
pub fn taken_heads_divide()
    ensures { TakenHeadsDivide }
{}

/// Any bytes divide into lines in exactly one way.
pub fn lines_exist()
    ensures { LinesExist }
{}

/// The lines into which the function of `bstr` cuts bytes are the lines of those bytes.
pub fn lines_are_cut()
    ensures { LinesAreCut }
{}

/// Two streams have at most one extraction.
pub fn one_extraction()
    ensures { OneExtraction }
{}

/// Text that is UTF-8 is displayed as its exact bytes.
pub fn lossy_text_is_exact()
    ensures { LossyTextIsExact }
{}
