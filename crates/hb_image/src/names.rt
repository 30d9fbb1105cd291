//! Which texts are names of ports.

ghost use Rattle.std.specs.Prelude.{◌≡◌};
ghost use Rattle.std.specs.List.{list_all, list_any};
ghost use Rattle.hb_base.specs.PortName;
ghost use Rattle.hb_base.specs.PortName.{same_text, reserved_words};

fn begins_name(byte: u8) -> bool
    ensures { result ≡ PortName.begins_name byte }
{
    (b'a' <= byte && byte <= b'z') || byte == b'_'
}

fn continues_name(byte: u8) -> bool
    ensures { result ≡ PortName.continues_name byte }
{
    (b'a' <= byte && byte <= b'z')
        || (b'A' <= byte && byte <= b'Z')
        || (b'0' <= byte && byte <= b'9')
        || byte == b'_'
        || byte == b'\''
}

fn is_lower(byte: u8) -> bool
    ensures { result ≡ PortName.is_lower byte }
{
    b'a' <= byte && byte <= b'z'
}

fn continue_name(bytes: &[u8]) -> bool
    ensures { result ≡ list_all PortName.continues_name bytes.now }
{
    bytes.iter().all(|byte| continues_name(*byte))
}

fn is_variable(name: &[u8]) -> bool
    ensures { result ≡ PortName.is_variable name.now }
{
    match name {
        [] => false,
        [only] => is_lower(*only),
        [first, others @ ..] => begins_name(*first) && continue_name(others),
    }
}

fn is_among(name: &[u8], words: &[&[u8]]) -> bool
    ensures { result ≡ list_any (λ word. same_text name.now word.now) words.now }
{
    words.iter().any(|word| name == *word)
}

fn is_reserved(name: &[u8]) -> bool
    ensures { result ≡ list_any (same_text name.now) reserved_words }
{
    is_among(
        name,
        &[
            b"area",
            b"bitdata",
            b"struct",
            b"port",
            b"class",
            b"instance",
            b"data",
            b"infix",
            b"infixl",
            b"infixr",
            b"where",
            b"let",
            b"in",
            b"do",
            b"of",
            b"case",
            b"if",
            b"then",
            b"else",
            b"each",
            b"fields",
            b"aligned",
            b"at",
        ],
    )
}

/// Whether a port may have this name.
pub fn is_port_name(name: &[u8]) -> bool
    ensures { result ≡ PortName.is_port_name name.now }
{
    name.len() <= 64 && is_variable(name) && !is_reserved(name)
}
