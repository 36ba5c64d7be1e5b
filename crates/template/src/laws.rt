//! Laws of templates: facts that hold for every template and all values.

ghost use Rattle.template.specs.Laws.{NoValueIsMark, NoValueIsMarkup, RendersNoControls, RendersOneTree, ShowsValues};

/// What is rendered has no control characters except tabs and line feeds, and no characters that change the direction
/// of writing, if the template has none.
#[tactic(auto, using(crate::proofs::Controls::renders_no_controls))]
pub fn renders_no_controls()
    ensures { RendersNoControls }
{}

/// No value in what a sound template renders is read as markup: a reader of a small part of XML reads the trees that it
/// reads if it takes only the template's own texts as markup, and the values as data.
pub fn no_value_is_markup()
    ensures { NoValueIsMarkup }
{}

/// Every value that a template has a hole for is in what it renders: the text with this name of each item in the
/// sections with these names.
pub fn shows_values()
    ensures { ShowsValues }
{}

/// What is rendered of a template that is one element is one tree: the tree of the template with the values as data. XML
/// has a place for each of its characters.
pub fn renders_one_tree()
    ensures { RendersOneTree }
{}

/// What a template of Markdown renders has the marks of the template and no others: a line, a cell of a table and a
/// `<pre>` end where the template ends them, whatever the values are.
pub fn no_value_is_mark()
    ensures { NoValueIsMark }
{}
