//! The caller that the page on calling `report_templates` shows.

ghost use Rattle.std.specs.Prelude.{IfOk, IsSome, string_bytes};
ghost use Rattle.std.specs.Option.{IfSome};
ghost use Rattle.report_templates.specs.Laws.{IsOneDocument};
ghost use Rattle.report_templates.specs.Sound.{page_parts};
ghost use Rattle.template.specs.Template.{values_view};

use report_templates::PAGE;
use std::alloc::{AllocError, Global};
use template::{Value, parse_template, render};

/// Returns the page of values after its first line. Whatever the values are, it is one document, and no value is markup.
pub fn page(alloc: Global, values: &[Value]) -> Result<Option<String>, AllocError>
    ensures is_some { IfOk result IsSome }
    ensures one_document { IfOk result (λ page. IfSome page (λ text.
        IsOneDocument page_parts (values_view values.now) (string_bytes text))) }
{
    report_templates::laws::page_is_sound();
    report_templates::laws::page_is_one_document();
    let Some(parts) = parse_template(alloc, PAGE)? else {
        return Ok(None);
    };
    let mut page = String::new(alloc);
    render(&mut page, parts.as_slice(), values)?;
    Ok(Some(page))
}
