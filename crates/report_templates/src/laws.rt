//! Laws of the templates. Each is a function that does nothing, and its contract is the law.

ghost use Rattle.report_templates.specs.Laws.{JunitIsOneDocument, PageIsOneDocument, SummaryKeepsItsMarks};
ghost use Rattle.report_templates.specs.Sound.{JunitIsSound, MarkdownIsSound, PageIsSound};

/// The page is a template of one element. Each value is between tags or in a quoted attribute, and none is in the style
/// sheet. The page ends by `/>` only elements that have no content in HTML, and none of these by an end tag. Its own
/// texts have no control characters.
pub fn page_is_sound()
    ensures { PageIsSound }
{}

/// The XML of JUnit is a template of one element, in which each value is between tags or in a quoted attribute. Its own
/// texts have no control characters.
pub fn junit_is_sound()
    ensures { JunitIsSound }
{}

/// The summary is a template in which each value is where it cannot be a mark of Markdown. Its own texts have no
/// control characters. `FAILED` is a template, too: the texts of the two sections `failed` of `MARKDOWN`, one after the
/// other.
pub fn markdown_is_sound()
    ensures { MarkdownIsSound }
{}

/// What is rendered of the page is one document in which no value is markup, whatever the values are: a reader of XML
/// finds one tree, that of the template with the values as data. It has no control characters except tabs and line
/// feeds, and no characters that change the direction of writing.
pub fn page_is_one_document()
    ensures { PageIsOneDocument }
{
    page_is_sound();
    template::laws::renders_one_tree();
    template::laws::renders_no_controls();
}

/// What is rendered of the XML of JUnit is such a document, too.
pub fn junit_is_one_document()
    ensures { JunitIsOneDocument }
{
    junit_is_sound();
    template::laws::renders_one_tree();
    template::laws::renders_no_controls();
}

/// What is rendered of the summary has the marks of the template and no others, whatever the values are: lines, cells
/// of the table and `<pre>` end where the template ends them. It has no control characters except tabs and line feeds,
/// and no characters that change the direction of writing.
pub fn summary_keeps_its_marks()
    ensures { SummaryKeepsItsMarks }
{
    markdown_is_sound();
    template::laws::no_value_is_mark();
    template::laws::renders_no_controls();
}
