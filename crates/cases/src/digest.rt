// The digest of a buffer (reference/README.md, "The file `expected`").
ghost use Rattle.std.specs.Prelude.{◌≡◌, ◌<◌};
ghost use Rattle.cases.specs.Digest.{stepped, digested};

fn step(digest: u64, element: u32) -> u64
    requires { digest < 4294967291 }
    ensures { result ≡ stepped digest element }
{
    (digest * 65599 + element as u64 + 1) % 4294967291
}

// The digest of octets.
pub fn of_octets(buffer: &[u8]) -> u64
    ensures { result ≡ digested 0 buffer.now }
{
    let mut digest: u64 = 0;
    for octet in buffer {
        digest = step(digest, *octet as u32);
    }
    digest
}

// The digest of numbers.
pub fn of_numbers(buffer: &[u32]) -> u64
    ensures { result ≡ digested 0 buffer.now }
{
    let mut digest: u64 = 0;
    for number in buffer {
        digest = step(digest, *number);
    }
    digest
}
