// A node as a value: what growth reads of it and hands back.

ghost use Rattle.std.specs.Prelude.{◌≡◌};
ghost use Rattle.graph.specs.Node.{moved, moved_top, Movable, TopMovable, NodeMovable, empty_node, grown_node};

// Directions.
pub const DOWN: usize = 0;

pub const UP: usize = 1;

#[derive(Clone, Copy)]
pub struct DualNode {
    pub class: usize, // a defect's vertex, or V + the first member of a blossom
    pub state: usize, // 0 Stay, 1 Grow, 2 Shrink
    pub parent: usize, // the blossom that it lies in, as its number + 1, or 0
    pub dual: usize, // the dual variable
    pub overgrown: usize, // how many vertices its overgrown stack has
    pub top: usize, // the amount of the top one, 0 without any
}

impl DualNode {
    // The largest dual variable, and the largest amount of an overgrown vertex.
    pub const MAX_DUAL: usize = 1000000000;

    // The node that stands for nothing.
    pub fn empty() -> DualNode
        ensures { result ≡ empty_node }
    {
        DualNode {
            class: 0,
            state: 0,
            parent: 0,
            dual: 0,
            overgrown: 0,
            top: 0,
        }
    }

    // The node grown by a length: its dual variable and its top amount move.
    pub fn grown(mut self, direction: usize, by: usize) -> DualNode
        requires { NodeMovable direction by self }
        ensures { result ≡ grown_node direction by self }
    {
        self.dual = move_number(direction, by, self.dual);
        self.top = move_top(direction, by, self.overgrown, self.top);
        self
    }
}

// x moved by a length: up in direction 1, down else.
pub fn move_number(direction: usize, by: usize, x: usize) -> usize
    requires { Movable direction by x }
    ensures { result ≡ moved direction by x }
{
    if direction == UP { x + by } else { x - by }
}

// The top amount moved, if there is one.
fn move_top(direction: usize, by: usize, n: usize, x: usize) -> usize
    requires { TopMovable direction by n x }
    ensures { result ≡ moved_top direction by n x }
{
    if n == 0 {
        x
    } else {
        move_number(direction, by, x)
    }
}
