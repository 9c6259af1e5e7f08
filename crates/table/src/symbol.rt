// What a kind of symbol is: code above this trait is written once for every kind.
ghost use Rattle.std.specs.Prelude.{◌≡◌, ℕ, Bool, true};
ghost use Rattle.table.specs.declared.node.Leaf.{Leaf};

use crate::node::Leaf;

// A kind of symbol: its number, which leaves and which symbols are allowed, and which symbols pass a leaf.
// Several kinds may share a number; a call then goes by the kind of the symbols that it takes.
pub trait Symbol: Copy {
    ghost number: { ℕ };

    ghost admitted: { Leaf → Bool };

    ghost allowed: { Self → Bool };

    ghost passing: { Leaf → Self → Bool };

    ghost any: { Leaf };

    // The number that a table keeps to say for which kind it was judged. It is a number, since kinds are written outside
    // this crate too, and several may share one.
    fn kind() -> u8
        ensures { result ≡ number };

    // Whether a table of this kind may hold the leaf.
    fn admits(leaf: Leaf) -> bool
        ensures { result ≡ admitted leaf };

    // Whether the symbol may be read at all.
    fn is_allowed(self) -> bool
        ensures { result ≡ allowed self };

    // Whether the symbol passes the leaf, allowed or not.
    fn passes(self, leaf: Leaf) -> bool
        ensures { result ≡ passing leaf self };

    // The leaf that every allowed symbol passes.
    fn any_leaf() -> Leaf
        ensures { result ≡ any };

    // The any-leaf is allowed, and every allowed symbol passes it.
    ghost anyadmitted: { admitted any ≡ true };

    ghost anypassed: { (s : Self) → allowed s ≡ true → passing any s ≡ true };
}
