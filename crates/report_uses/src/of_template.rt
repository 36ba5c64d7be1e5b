//! The caller that the page on calling `template` shows.

ghost use Rattle.std.specs.Prelude.{◌≡◌, ◌++◌, [], IfOk, IsSome, Some, codes, string_bytes};
ghost use Rattle.std.specs.Option.{IfSome};
ghost use Rattle.template.specs.Reader.{read_tree};
ghost use Rattle.template.specs.Shown.{shown};
ghost use Rattle.template.specs.Tree.{ElementTree, NoTrees, OneTree, TextTree};

use std::alloc::{AllocError, Global};
use template::{parse_template, push_text, render};

/// Returns a paragraph of HTML that greets someone. Whatever the name is, it is read as one element with one text.
pub fn greeting(alloc: Global, name: &str) -> Result<Option<String>, AllocError>
    ensures is_some { IfOk result IsSome }
    ensures reads { IfOk result (λ page. IfSome page (λ text. read_tree (string_bytes text)
        ≡ Some (ElementTree (codes "p") [] (OneTree (TextTree (codes "Hello, " ++ (shown name.now ++ codes "!\n"))) NoTrees)))) }
{
    let Some(parts) = parse_template(alloc, "<p>Hello, {{name}}!\n</p>")? else {
        return Ok(None);
    };
    let mut values = Vec::new(alloc);
    push_text(&mut values, "name", String::from_str(alloc, name)?)?;
    let mut page = String::new(alloc);
    render(&mut page, parts.as_slice(), values.as_slice())?;
    Ok(Some(page))
}
