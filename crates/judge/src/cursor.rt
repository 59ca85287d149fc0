// Where the reader of a model text stands.

ghost use Rattle.std.specs.Prelude.{◌≡◌, ◌+◌, ◌^◌, ◌<◌};
ghost use Rattle.fields.specs.Limits.{max_text, max_nodes};

// The place, how many nodes and names were begun, and, behind a member, how many groups of two members or more are one inside the other in it.
#[derive(Clone, Copy)]
pub(crate) struct Cursor {
    pub(crate) at: usize,
    pub(crate) nodes: usize,
    pub(crate) names: usize,
    pub(crate) height: u8,
}

impl Cursor {
    ghost use Rattle.judge.specs.Reading.{Cursor.one_on, Group.inside_group};

    // Behind one byte more, by which no node begins.
    pub(crate) fn on(self, height: u8) -> Cursor
        requires { self.at + 1 < 2 ^ 64 }
        ensures { result ≡ one_on self height }
    {
        Cursor {
            at: self.at + 1,
            height,
            ..self
        }
    }

    // Behind the bracket of a group.
    pub(crate) fn inside(self) -> Cursor
        requires { (self.at < max_text) × (self.nodes < max_nodes) }
        ensures { result ≡ inside_group self }
    {
        Cursor {
            at: self.at + 1,
            nodes: self.nodes + 1,
            height: 0,
            ..self
        }
    }
}
