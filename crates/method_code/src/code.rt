//! The code of a program.

ghost use Rattle.std.specs.Prelude.{◌≡◌, slice_get};
ghost use Rattle.std.specs.Option.{option_copied};

use crate::method::Method;
use seuss_base::List;
use std::marker::Model;

/// The code of a program: of all procedures of all cats, in their order. Contracts see it as the list
/// of their codes.
#[derive(Debug, Drop)]
pub struct Code {
    pub(crate) methods: List<Method>,
}

impl Model for Code {
    ghost use Rattle.std.specs.Prelude.{List as Items};
    ghost use Rattle.method_code.specs.declared.method.Method.{Method};
    ghost use Rattle.method_code.specs.contracts.method.Method as method;
    ghost use Rattle.std.specs.Coded.{coded_list};
    ghost use Rattle.method_code.specs.Fits.{AllFit};

    ghost Value = { Items Method };

    ghost coded = { coded_list method.the_row.coded };

    ghost view = { λ c. c.methods };

    ghost invariant = { λ c. AllFit c.methods };
}

impl Code {
    /// The code of a procedure, by its number over all cats.
    pub fn method(&self, number: u32) -> Option<&Method>
        ensures { option_copied result ≡ slice_get self.now number }
    {
        self.methods.get(number as u64)
    }
}
