#![tactic(auto)]

// The graph and everything that is stored of it in a block of words: reading and writing.

pub mod words; // the only place that sees a signed number
pub mod rows; // the arrays of a block
pub mod side; // fields of sides
pub mod vertex; // fields of vertices
pub mod edge; // fields of edges
pub mod node; // fields of nodes
pub mod dual_node; // a node as a value
pub mod sizes; // the sizes in range, and the lengths that they fix
pub mod sides; // the sides at a vertex
pub mod lists; // the lists of a node
pub mod top; // the top of an overgrown stack, and a node read as a value
