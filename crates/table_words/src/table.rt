// What is handed over beside the distances: a graph, its defects with their dual variables, and the growths.

#[derive(Clone, Copy)]
pub struct Table<'a> {
    pub v: usize, // how many vertices
    pub e: usize, // how many edges
    pub edges: &'a [i64],
    pub virtuals: &'a [i64],
    pub defects: &'a [i64], // their vertices
    pub duals: &'a [i64],
    pub growths: &'a [i64],
}
