//! A struct that contains itself.
ghost use Rattle.std.specs.Prelude.{OnOk, ⊤, map};
ghost use Rattle.serde.specs.Event.{InSeq};
ghost use Rattle.example_agreement.specs.Trees.{tree_view, branches_of, count, SendsBranch, SendsBranches, IsTreeRow};
ghost use Rattle.example_agreement.specs.TreeLaws.{tree_law};

use schemars_agreement::{Agrees, fields_at, is_field, is_list_field};
use schemars_types::{TypeNo, Types};
use serde::{Described, Serialize, Serializer};

/// A name, and the trees below it.
#[derive(Drop)]
pub struct Tree {
    pub name: String,
    pub children: Vec<Tree>,
}

impl Described for Tree {
    ghost writes = { λ t. SendsBranch (tree_view t) };
}

impl Serialize for Tree {
    fn serialize<S: Serializer>(&self, out: &mut S) -> Result<(), S::Error> {
        send(self, out)
    }
}

#[cycle(send)]
fn send<S: Serializer>(tree: &Tree, out: &mut S) -> Result<(), S::Error>
    ensures { OnOk result (SendsBranch (tree_view tree.now)
        (S.written out.old) (S.written out.new)) }
{
    out.begin_map(Some(2))?;
    out.key("name")?;
    tree.name.serialize(out)?;
    out.key("children")?;
    send_children(&tree.children, out)?;
    out.end_map()
}

#[cycle(send)]
fn send_children<S: Serializer>(children: &Vec<Tree>, out: &mut S) -> Result<(), S::Error>
    ensures { OnOk result (InSeq (count (branches_of (map tree_view children.now.items)))
        (SendsBranches (branches_of (map tree_view children.now.items)))
        (S.written out.old) (S.written out.new)) }
{
    out.begin_seq(Some(children.len()))?;
    for child in children {
        send(child, out)?;
    }
    out.end_seq()
}

impl Agrees for Tree {
    ghost valid = { λ _. ⊤ };

    ghost is_row = { IsTreeRow };

    ghost agrees = { tree_law };

    fn has_row(types: &Types, n: TypeNo) -> bool {
        match fields_at(types, n) {
            Some([name, children]) => {
                is_field::<String>(types, name, "name")
                    && is_list_field(types, children, "children", n)
            }
            _ => false,
        }
    }

    fn is_valid(&self) -> bool {
        true
    }
}
