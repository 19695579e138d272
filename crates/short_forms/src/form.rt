ghost use Rattle.std.specs.Prelude.{◌≡◌};
ghost use Rattle.short_forms.specs.Refusals.{form_name};

use std::error::Error;
use std::fmt;
use tree_base::Memory;

/// The short forms of the Compose Specification that this crate reads.
#[derive(Debug, Clone, Copy)]
pub enum Form {
    Port,
    Mount,
    Duration,
    Size,
    Decimal,
    KeyValue,
    Words,
}

impl Form {
    /// The form's name, as it is printed.
    pub fn name(self) -> &'static str
        ensures { result.now ≡ form_name self }
    {
        match self {
            Form::Port => "Port",
            Form::Mount => "Mount",
            Form::Duration => "Duration",
            Form::Size => "Size",
            Form::Decimal => "Decimal",
            Form::KeyValue => "KeyValue",
            Form::Words => "Words",
        }
    }
}

/// Why a short form was not read.
#[derive(Debug, Clone, Copy)]
pub enum FormRefusal {
    /// The text isn't of this form.
    BadForm { which: Form },
    /// There was no memory for the value.
    Memory,
}

impl From<Memory> for FormRefusal {
    ghost use Rattle.short_forms.specs.declared.form.FormRefusal.TheVariants.{Memory as out_of_memory};

    ghost from_gives = { λ _ e. e ≡ out_of_memory };

    fn from(_: Memory) -> FormRefusal {
        FormRefusal::Memory
    }
}

impl fmt::Display for FormRefusal {
    ghost use Rattle.std.specs.Prelude.{Some};
    ghost use Rattle.short_forms.specs.Refusals.{refusal_text};

    ghost output = { λ refusal. Some (refusal_text refusal) };

    /// The name of the form behind `bad form: `, or `memory`.
    fn fmt<W: fmt::Write>(&self, f: &mut fmt::Formatter<W>) -> fmt::Result {
        match self {
            FormRefusal::BadForm { which } => {
                let name = which.name();
                write!(f, "bad form: {name}")
            }
            FormRefusal::Memory => write!(f, "memory"),
        }
    }
}

impl Error for FormRefusal {}
