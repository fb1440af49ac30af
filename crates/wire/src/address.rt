// Which numbers are a Node-ID, and which a bit index: LSS, the store and the state rules ask alike.
ghost use Rattle.std.specs.Prelude.{◌≡◌};
ghost use Rattle.model.specs.Store.{node_id, bit_index};

// A Node-ID.
pub fn is_node_id(n: u8) -> bool
    ensures { result ≡ node_id n }
{
    matches!(n, 1..=127)
}

// A bit index of the table of bit rates: 1 and 5 are reserved.
pub fn is_bit_index(n: u8) -> bool
    ensures { result ≡ bit_index n }
{
    (n <= 8) & !matches!(n, 1 | 5)
}
