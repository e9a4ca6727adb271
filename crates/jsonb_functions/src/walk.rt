//! Steps of a walk over items or members.

ghost use Rattle.std.specs.Prelude.{IfSome};
ghost use Rattle.jsonb_functions.specs.Words.{HoldsNoScalar, YieldsFirstBy, member_tree, node_tree};
ghost use Rattle.jsonb_functions.specs.Words.{rest_pairs, rest_trees};

use jsonb::{Items, Members, Node};

/// The next item.
#[inline(always)]
pub fn next_item<'a>(items: &mut Items<'a>) -> Option<Node<'a>>
    ensures steps { YieldsFirstBy node_tree rest_trees items.old result items.new }
    ensures container { IfSome result HoldsNoScalar }
{
    items.next()
}

/// The next member.
#[inline(always)]
pub fn next_member<'a>(members: &mut Members<'a>) -> Option<(&'a str, Node<'a>)>
    ensures steps { YieldsFirstBy member_tree rest_pairs members.old result members.new }
    ensures container { IfSome result (λ member. HoldsNoScalar member.1) }
{
    members.next()
}
