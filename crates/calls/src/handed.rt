// What a row hands over, from its fourth number on.
ghost use Rattle.std.specs.Prelude.{◌≡◌, drop};
ghost use Rattle.rows.specs.Rows.{info_row, response_row};

use script::response::{DaemonResponse, HandshakeInfo};

pub fn info_in(row: [u64; 22]) -> HandshakeInfo
    ensures { result ≡ info_row (drop 3 row) }
{
    let numbers: &[u64] = &row;
    row_infos::info_of(&numbers[3..])
}

pub fn response_in(row: [u64; 22]) -> DaemonResponse
    ensures { result ≡ response_row (drop 3 row) }
{
    let numbers: &[u64] = &row;
    row_responses::response_of(&numbers[3..])
}
