ghost use Rattle.std.specs.Prelude.{◌≡◌};
ghost use Rattle.std.specs.Option.{option_map};
ghost use Rattle.attribute_types.specs.Kinds.{kind_in, kind_of, plain_kind};

use crate::form::{Form, Plain};
use crate::table::form_of;
use tree_base::Text;

/// The kinds of a service's attributes.
#[derive(Clone, Copy, Debug, PartialEq, Eq, Drop)]
pub enum AttrKind {
    /// A scalar.
    Text,
    Bool,
    /// A number, at most 9,223,372,036,854,775,807.
    Num,
    /// A number, or -1.
    Int,
    /// A sequence of scalars.
    List,
    /// A mapping of scalars and nulls.
    Pairs,
    /// The words of a command line.
    Argv,
    Duration,
    Size,
    Decimal,
    /// Words, records, and mappings that are kept, by rules of the attribute's own.
    Own,
    /// Gone once files are loaded: `extends` and `env_file`.
    Consumed,
}

/// The kind of a service's attribute. None exactly where no attribute has this name. No memory.
pub fn kind_of(name: &Text) -> Option<AttrKind>
    ensures { result ≡ kind_of name.now }
{
    Some(kind_in(form_of(name.as_str())?))
}

fn kind_in(form: Form) -> AttrKind
    ensures { result ≡ kind_in form }
{
    match form {
        Form::Plain(plain) => plain_kind(plain),
        Form::Own(_) => AttrKind::Own,
        Form::Consumed => AttrKind::Consumed,
    }
}

fn plain_kind(plain: Plain) -> AttrKind
    ensures { result ≡ plain_kind plain }
{
    match plain {
        Plain::Text => AttrKind::Text,
        Plain::Bool => AttrKind::Bool,
        Plain::Flag => AttrKind::Bool,
        Plain::Num => AttrKind::Num,
        Plain::Scale => AttrKind::Num,
        Plain::Int => AttrKind::Int,
        Plain::List => AttrKind::List,
        Plain::Items(_) => AttrKind::List,
        Plain::Pairs => AttrKind::Pairs,
        Plain::Labels => AttrKind::Pairs,
        Plain::Argv => AttrKind::Argv,
        Plain::Duration => AttrKind::Duration,
        Plain::Size => AttrKind::Size,
        Plain::Decimal => AttrKind::Decimal,
        _ => AttrKind::Own,
    }
}
