//! The interface between the writer and what it writes, one level at a time.

ghost use Rattle.std.specs.Prelude.{◌≡◌, ◌<◌, ◌≤◌, ◌+◌, ◌^◌, ℕ, List, [], length, IfSome};
ghost use Rattle.std.specs.Prelude.{MatchOption};
ghost use Rattle.jsonb_codec.specs.declared.constants.TheConstants.{STRING_TAG};
ghost use Rattle.jsonb_codec.specs.Room.{HasRoom, AppendsBytes};
ghost use Rattle.jsonb_codec.specs.Shape.{Shape, Shapes, no_shapes, shape_count};
ghost use Rattle.jsonb_codec.specs.Source.{SourceMeaning, Laws, LevelIs, AreSplit, level_size};
ghost use Rattle.jsonb_codec.specs.Source.{LevelHeld};

/// A scalar with a type and a payload.
pub trait Leaf: Copy {
    ghost code: { Self → ℕ × List ℕ };

    /// The type of the entry.
    fn type_code(self) -> u32
        ensures value { result ≡ (code self).0 }
        ensures small { result ≤ 0x70000000 };

    /// The length of the payload in bytes.
    fn len(self) -> usize
        ensures { result ≡ length (code self).1 };

    /// Appends the payload. The buffer must have the capacity.
    fn append_to(self, out: &mut Vec<u8>)
        requires short { length (code self).1 < 2 ^ 28 }
        requires room { HasRoom out.old (code self).1 }
        ensures { AppendsBytes out.old out.new (code self).1 };
}

/// The kind of a value, and its content one level down.
#[derive(Clone, Copy)]
pub enum Level<L, I, O> {
    Leaf(L),
    Array(I),
    Object(O),
}

/// A child, or its later siblings.
#[derive(Clone, Copy)]
pub enum Side {
    Child,
    Later,
}

impl Side {
    /// The shorter side, by the length of the child and of its later siblings.
    #[inline(always)]
    pub fn shorter(child: usize, later: usize) -> Side
        ensures child { child ≤ later → result ≡ Side.Child }
        ensures later { later < child → result ≡ Side.Later }
    {
        if child > later {
            Side::Later
        } else {
            Side::Child
        }
    }
}

/// Values of one type, which the writer visits level by level.
pub trait Source {
    type Leaf: Leaf;

    type Child: Copy;

    type Items: Copy;

    type Object: Copy;

    type Members: Drop;

    ghost meaning: { SourceMeaning Self.Child Self.Items Self.Object Self.Members };

    ghost laws: { Laws meaning };

    /// The top level of a child.
    fn level(child: Self::Child) -> Level<Self::Leaf, Self::Items, Self::Object>
        requires { (s : Shape) × meaning.child child s }
        ensures is { (s : Shape) → meaning.child child s → LevelIs Self.Leaf.code meaning result s }
        ensures size { level_size meaning result ≤ meaning.child_size child }
        ensures held { LevelHeld meaning result → meaning.child_held child };

    /// Whether an item or its later siblings are read in less time, if that is known without
    /// reading them. Only a hint, by which the writer chooses what to measure: the time stays
    /// within n log n of all that is read if the other side is not shorter by more than a fixed
    /// factor.
    #[inline(always)]
    fn item_side(_: Self::Child, _: Self::Items) -> Option<Side> {
        None
    }

    /// The same of a member's value.
    #[inline(always)]
    fn value_side(_: Self::Child, _: &Self::Members) -> Option<Side> {
        None
    }

    /// The number of items.
    fn count(items: Self::Items) -> usize
        ensures { (ss : Shapes) → meaning.items items ss → result ≡ shape_count ss };

    /// The first item, and the items after it. `None` if there is none.
    fn split_item(items: Self::Items) -> Option<(Self::Child, Self::Items)>
        requires { (ss : Shapes) × meaning.items items ss }
        ensures split { (ss : Shapes) → meaning.items items ss → MatchOption result (ss ≡ no_shapes)
            (λ x. AreSplit (λ key. key ≡ []) meaning.child meaning.items x ss) }
        ensures size { IfSome result (λ x. meaning.child_size x.0 + meaning.items_size x.1
            < meaning.items_size items) }
        ensures held { MatchOption result (meaning.items_held items)
            (λ x. meaning.child_held x.0 → meaning.items_held x.1 → meaning.items_held items) };

    /// How many members an object has, which is known at once: a walk over them may take a step for
    /// each of them to begin.
    fn object_count(object: Self::Object) -> usize
        ensures { (ss : Shapes) → meaning.object object ss → result ≡ shape_count ss };

    /// An iteration over the members of an object.
    fn members(object: Self::Object) -> Self::Members
        ensures are { (ss : Shapes) → meaning.object object ss → meaning.members result ss }
        ensures size { meaning.members_size result ≤ meaning.object_size object }
        ensures held { meaning.members_held result → meaning.object_held object };

    /// The number of members left.
    fn members_left(members: &Self::Members) -> usize
        ensures { (ss : Shapes) → meaning.members members.now ss → result ≡ shape_count ss };

    /// A second iteration over the members left.
    fn fork(members: &Self::Members) -> Self::Members
        ensures { (ss : Shapes) → meaning.members members.now ss → meaning.members result ss };

    /// The key and the value of the first member, and the members after it. `None` if there is
    /// none.
    fn split_member(members: Self::Members) -> Option<(Self::Leaf, (Self::Child, Self::Members))>
        requires { (ss : Shapes) × meaning.members members ss }
        ensures split { (ss : Shapes) → meaning.members members ss
            → MatchOption result (ss ≡ no_shapes)
            (λ x. AreSplit (λ key. Self.Leaf.code x.0 ≡ (STRING_TAG, key)) meaning.child
            meaning.members x.1 ss) }
        ensures size { IfSome result (λ x. meaning.child_size x.1.0 + meaning.members_size x.1.1
            < meaning.members_size members) }
        ensures held { MatchOption result (meaning.members_held members)
            (λ x. meaning.child_held x.1.0 → meaning.members_held x.1.1
            → meaning.members_held members) };
}
