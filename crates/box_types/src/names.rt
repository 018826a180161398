//! What is declared under a name.
ghost use Rattle.std.specs.Prelude.{◌≡◌};
ghost use Rattle.seuss_program.specs.declared.tree.Name.{Name};

use crate::scopes::Local;
use seuss_program::{BoxDecl, Cat, Given, Name, Proc, Var};

/// What is declared under a name.
pub(crate) trait Named {
    ghost name_of: { Self → Name };

    fn name(&self) -> &Name
        ensures { result.now ≡ name_of self.now };
}

impl<N> Named for Cat<N> {
    ghost name_of = { λ cat. cat.name };

    fn name(&self) -> &Name {
        &self.name
    }
}

impl<N> Named for Proc<N> {
    ghost name_of = { λ procedure. procedure.name };

    fn name(&self) -> &Name {
        &self.name
    }
}

impl Named for Var {
    ghost name_of = { λ var. var.name };

    fn name(&self) -> &Name {
        &self.name
    }
}

impl Named for BoxDecl {
    ghost name_of = { λ declared. declared.name };

    fn name(&self) -> &Name {
        &self.name
    }
}

impl<N> Named for Given<N> {
    ghost name_of = { λ given. given.name };

    fn name(&self) -> &Name {
        &self.name
    }
}

impl Named for Local {
    ghost name_of = { λ local. local.name };

    fn name(&self) -> &Name {
        &self.name
    }
}

impl Named for Name {
    ghost name_of = { λ name. name };

    fn name(&self) -> &Name {
        self
    }
}
