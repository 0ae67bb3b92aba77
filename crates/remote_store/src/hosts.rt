//! Names of hosts.
ghost use Rattle.std.specs.Prelude.{◌≡◌};
ghost use Rattle.std.specs.List.{list_all};
ghost use Rattle.remote_store.specs.Hosts.{begins_host, is_host, is_host_byte};

fn is_host_byte(b: u8) -> bool
    ensures { result ≡ is_host_byte b }
{
    b.is_ascii_alphanumeric() || b == b'.' || b == b'-'
}

fn begins_host(text: &[u8]) -> bool
    ensures { result ≡ begins_host text.now }
{
    match text {
        [] => false,
        [first, ..] => first.is_ascii_alphanumeric(),
    }
}

fn has_host_bytes(text: &[u8]) -> bool
    ensures { result ≡ list_all is_host_byte text.now }
{
    text.iter().all(|b| is_host_byte(*b))
}

/// Whether a text is the name of a host, or an address of four numbers: 1 to 255 letters, digits, points and hyphens, of
/// which the first is a letter or a digit.
pub fn is_host(text: &[u8]) -> bool
    ensures { result ≡ is_host text.now }
{
    let first = begins_host(text);
    let bytes = has_host_bytes(text);
    text.len() <= 255 && first && bytes
}
