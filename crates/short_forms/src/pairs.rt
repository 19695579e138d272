ghost use Rattle.short_forms.specs.Answers.{Gives, answer_of};
ghost use Rattle.short_forms.specs.Pairs.{key_value_of, keyed};

use crate::cuts::cut_text;
use crate::form::{Form, FormRefusal};
use std::alloc::Global;
use tree_base::Text;

/// The key and the value of `KEY=VALUE`, cut at the first `=`; without one there is no value. The key isn't empty.
pub fn key_value(alloc: Global, text: &Text) -> Result<(Text, Option<Text>), FormRefusal>
    ensures { Gives result (answer_of Form.KeyValue (key_value_of text.now)) }
{
    match cut_text(text.as_str(), '=') {
        None => pair(alloc, text.as_str(), None),
        Some((key, value)) => pair(alloc, key, Some(Text::from_str(alloc, value)?)),
    }
}

/// A key and its value.
fn pair(alloc: Global, key: &str, value: Option<Text>) -> Result<(Text, Option<Text>), FormRefusal>
    ensures { Gives result (answer_of Form.KeyValue (keyed key.now value)) }
{
    if key.is_empty() {
        return Err(FormRefusal::BadForm {
            which: Form::KeyValue,
        });
    }
    Ok((Text::from_str(alloc, key)?, value))
}
