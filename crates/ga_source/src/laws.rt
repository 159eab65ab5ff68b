//! Laws of the definitions, each the contract of a function that does nothing.

ghost use Rattle.std.specs.Prelude.{◌≡◌, ℕ, List, [], Some, drop, slice_index_or};
ghost use Rattle.ga_node.specs.Record.{NodeState, HasValidListSizes, record_of_node};
ghost use Rattle.ga_grid.specs.Chip.{node_at};
ghost use Rattle.ga_grid.specs.Grid.{default_chip};
ghost use Rattle.ga_parser.specs.Plain.{PlainRequests, named_node_number, plain_requests_of_words};
ghost use Rattle.ga_source.specs.Made.{HasNodeOfPlainWords, node_with_plain_requests};

/// If the words after a `node` are plain, the whole node is the one at load with their requests.
pub fn plain_words_make_nodes()
    ensures { (chip : List NodeState) (words : List (List ℕ)) (n : ℕ) (plain : PlainRequests) → HasNodeOfPlainWords chip words →
        named_node_number (slice_index_or words 0 []) ≡ Some n → plain_requests_of_words (drop 1 words) ≡ Some plain → HasValidListSizes (record_of_node (node_at chip n)) →
        node_at chip n ≡ node_with_plain_requests (node_at default_chip n) plain }
{}
