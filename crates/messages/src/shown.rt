// What a message shows of a text, as its bytes stand there.
ghost use Rattle.std.specs.Prelude.{◌≡◌};
ghost use Rattle.messages.specs.Shown.{in_item, item_length, item_shown};

// How many bytes the item has that begins here; no more than 24 are shown.
pub(crate) fn item(text: &[u8]) -> usize
    ensures { result ≡ item_shown text.now }
{
    item_length(text).min(24)
}

fn item_length(text: &[u8]) -> usize
    ensures { result ≡ item_length text.now }
{
    text.iter().take_while(|b| in_item(**b)).count()
}

fn in_item(b: u8) -> bool
    ensures { result ≡ in_item b }
{
    matches!(b, b'0'..=b'9' | b'l' | b'v' | b'.' | b'!' | b's')
}
