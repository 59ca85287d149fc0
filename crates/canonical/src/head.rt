// What the writer keeps of a tree, on a stack in an array that is lent.

ghost use Rattle.std.specs.Prelude.{◌≡◌};
ghost use Rattle.canonical.specs.Writer.{Head.is_nothing, Head.is_atom, Head.is_group, Head.sign_of, Keeps.sign_byte};
ghost use Rattle.canonical.specs.Writer.Tidied.{head_under};

use model::rule::{Mark, Sign};

// `()`, and a group of which no sign is known yet, is a group without a sign.
#[derive(Clone, Copy)]
pub(crate) enum Shape {
    Group(Sign),
    Atom,
}

impl Shape {
    // A group without a sign?
    pub(crate) fn is_nothing(self) -> bool
        ensures { result ≡ is_nothing self }
    {
        self.is_group(Sign::None)
    }

    pub(crate) fn is_group(self, sign: Sign) -> bool
        ensures { result ≡ is_group sign self }
    {
        match self {
            Shape::Group(own) => sign == own,
            Shape::Atom => false,
        }
    }

    pub(crate) fn is_atom(self) -> bool
        ensures { result ≡ is_atom self }
    {
        matches!(self, Shape::Atom)
    }

    // The byte that stands for the sign, 0 where there is none.
    pub(crate) fn byte(self) -> u8
        ensures { result ≡ sign_byte (sign_of self) }
    {
        match self {
            Shape::Group(Sign::Sequence) => b',',
            Shape::Group(Sign::Choice) => b'|',
            Shape::Group(Sign::Interleaving) => b'&',
            Shape::Group(Sign::None) | Shape::Atom => 0,
        }
    }
}

// `nullable`: it holds the empty row without its mark; `size` is the number of nodes; the smallest name begins at `least`.
#[derive(Clone, Copy)]
pub(crate) struct Head {
    pub(crate) shape: Shape,
    pub(crate) mark: Mark,
    pub(crate) nullable: bool,
    pub(crate) members: u8,
    pub(crate) size: u8,
    pub(crate) least: u16,
}

impl Head {
    // Under a mark. Field by field: a head that is copied whole goes through one number, which takes the compiler 20 instructions at each member.
    pub(crate) fn under(self, mark: Mark) -> Head
        ensures { result ≡ head_under mark self }
    {
        Head {
            shape: self.shape,
            mark,
            nullable: self.nullable,
            members: self.members,
            size: self.size,
            least: self.least,
        }
    }
}

// Of no tree.
pub(crate) const NO_HEAD: Head = Head {
    shape: Shape::Group(Sign::None),
    mark: Mark::Plain,
    nullable: false,
    members: 0,
    size: 0,
    least: 0,
};
