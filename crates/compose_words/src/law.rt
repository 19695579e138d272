ghost use Rattle.std.specs.Prelude.{◌≡◌, ℕ, List};
ghost use Rattle.compose_words.specs.Items.{items_of};
ghost use Rattle.compose_words.specs.Tiling.{Tiles};
ghost use Rattle.compose_words.specs.declared.item.Item.{Item};

/// Each word of a command line is the first word of one item or its value: no word is left out, and none
/// is read twice. No other list of items does so.
pub fn items_tile_words()
    ensures tiling { (words : List (List ℕ)) → Tiles words 0 (items_of words) }
    ensures alone { (words : List (List ℕ)) → (items : List Item) →
        Tiles words 0 items → items ≡ items_of words }
{}
