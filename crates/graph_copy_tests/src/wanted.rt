//! What is wanted of each case: the parcel, the refusal and the number of marks.
use crate::packs::Case;
use graph_copy::CopyFault;
use lanes_arena::{Code, Mark};
use parcel::{Leaf, Node, Parcel};

/// Whether a leaf is this text.
fn is_text(leaf: &Leaf, text: &[u8]) -> bool {
    match leaf {
        Leaf::Text(bytes) => bytes.as_slice() == text,
        _ => false,
    }
}

/// Whether a leaf is the node of this number.
fn is_node(leaf: &Leaf, number: u32) -> bool {
    match leaf {
        Leaf::Node(n) => *n == number,
        _ => false,
    }
}

/// The pairs of a table without a metatable and a mark.
fn plain_pairs(node: &Node) -> Option<&[(Leaf, Leaf)]> {
    match node {
        Node::Table { pairs, meta, mark } => {
            if meta.is_none() && mark.is_none() {
                Some(pairs.as_slice())
            } else {
                None
            }
        }
        _ => None,
    }
}

/// Whether a node is a plain table without pairs.
fn is_empty_table(node: &Node) -> bool {
    match plain_pairs(node) {
        Some(pairs) => pairs.is_empty(),
        None => false,
    }
}

/// Whether a node is a function with one cell.
fn is_function(node: &Node, wanted: Code, cell: u32) -> bool {
    match node {
        Node::Function { code, cells } => *code == wanted && cells.as_slice() == [cell].as_slice(),
        _ => false,
    }
}

fn is_circle(nodes: &[Node]) -> bool {
    let [node] = nodes else {
        return false;
    };
    let Some([(key, value)]) = plain_pairs(node) else {
        return false;
    };
    is_text(key, b"x") && is_node(value, 0)
}

fn is_class(nodes: &[Node]) -> bool {
    let [Node::Table { pairs, meta, mark }] = nodes else {
        return false;
    };
    let [(key, value)] = pairs.as_slice() else {
        return false;
    };
    is_text(key, b"__index")
        && is_node(value, 0)
        && *meta == Some(0)
        && *mark == Some(Mark { state: 0, table: 2 })
}

fn is_shared_cell(nodes: &[Node]) -> bool {
    let [whole, first, second, content] = nodes else {
        return false;
    };
    let Some([(one, g), (f, least)]) = plain_pairs(whole) else {
        return false;
    };
    let pairs = matches!(one, Leaf::Int(1)) && matches!(least, Leaf::Int(i64::MIN));
    pairs
        && is_node(g, 1)
        && is_node(f, 2)
        && is_function(first, Code::Walker, 3)
        && is_function(second, Code::Script(4), 3)
        && matches!(
            content,
            Node::Cell {
                content: Leaf::Int(-1)
            }
        )
}

fn is_diamond(nodes: &[Node]) -> bool {
    let [whole, shared] = nodes else {
        return false;
    };
    let Some([(left, one), (right, two)]) = plain_pairs(whole) else {
        return false;
    };
    is_text(left, b"left")
        && is_text(right, b"right")
        && is_node(one, 1)
        && is_node(two, 1)
        && is_empty_table(shared)
}

fn is_table_as_key(nodes: &[Node]) -> bool {
    let [whole, key] = nodes else {
        return false;
    };
    let Some([(one, value)]) = plain_pairs(whole) else {
        return false;
    };
    is_node(one, 1) && matches!(value, Leaf::Bool(false)) && is_empty_table(key)
}

fn is_leaves(nodes: &[Node]) -> bool {
    let [whole] = nodes else {
        return false;
    };
    let Some([(most, text), (again, yes), (no, linda)]) = plain_pairs(whole) else {
        return false;
    };
    let numbers = matches!(most, Leaf::Int(i64::MAX)) && matches!(linda, Leaf::Linda(9));
    let truths = matches!(yes, Leaf::Bool(true)) && matches!(no, Leaf::Bool(false));
    numbers && truths && is_text(text, b"") && is_text(again, b"")
}

fn has_nodes(nodes: &[Node], case: Case) -> bool {
    match case {
        Case::Circle => is_circle(nodes),
        Case::Class => is_class(nodes),
        Case::SharedCell => is_shared_cell(nodes),
        Case::Diamond => is_diamond(nodes),
        Case::TableAsKey => is_table_as_key(nodes),
        Case::Leaves => is_leaves(nodes),
        Case::LaneHandle => false,
    }
}

/// Whether both roots are the first node, and the nodes are as is wanted.
pub fn is_right(parcel: &Parcel, case: Case) -> bool {
    let [first, second] = parcel.roots.as_slice() else {
        return false;
    };
    is_node(first, 0) && is_node(second, 0) && has_nodes(parcel.nodes.as_slice(), case)
}

/// Whether the case is to be refused so.
pub fn is_refused_so(fault: CopyFault, case: Case) -> bool {
    case == Case::LaneHandle && matches!(fault, CopyFault::LaneHandle)
}

/// How many marks the state knows afterwards.
pub fn marks_wanted(case: Case) -> usize {
    if case == Case::Class { 1 } else { 0 }
}
