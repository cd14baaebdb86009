// Lines and columns of a text.
ghost use Rattle.std.specs.Prelude.{◌≡◌, take};
ghost use Rattle.elpi_cli.specs.Positions.{line_at, column_at};

// The bytes before this one, or all, where the text ends before it.
fn bytes_before(text: &[u8], at: usize) -> &[u8]
    ensures { result.now ≡ take at text.now }
{
    if at < text.len() { &text[..at] } else { text }
}

// The line of a byte, counted from 1.
pub fn line_at(text: &[u8], at: usize) -> usize
    ensures { result ≡ line_at text.now at }
{
    let mut line = 1;
    for byte in bytes_before(text, at) {
        if *byte == 10 {
            line += 1;
        }
    }
    line
}

// The column of a byte in characters, counted from 1.
pub fn column_at(text: &[u8], at: usize) -> usize
    ensures { result ≡ column_at text.now at }
{
    let mut column = 1;
    for byte in bytes_before(text, at) {
        if *byte == 10 {
            column = 1;
        } else if *byte < 128 || *byte >= 192 {
            column += 1;
        }
    }
    column
}
