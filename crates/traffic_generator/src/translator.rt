//! The middlebox that the packets are for.
ghost use Rattle.std.specs.Prelude.{◌≡◌};
ghost use Rattle.traffic_generator.specs.Translator.{translator_limits, translator_text};

use resource_limits::Limits;

// An address translator (RFC 3022): port 0 is inside, port 1 outside, and 192.0.2.1 the public address. The place of
// the next flow is looked up in a repeat, so the server alone has it, and the switch has both maps.
const SOURCE: &str = "map out (32, 16) -> (16) capacity 60000;
map back (16) -> (32, 16) capacity 60000;
int next : 16 = 1024;
process {
  if has.tcp == 0:1 { drop; }
  if meta.port == 0:8 {
    look f, p = out[ip.src, tcp.sport];
    let q = p;
    if f == 0:1 {
      repeat i 1 {
        look g, n = next[];
        put a = out[ip.src, tcp.sport] -> n;
        if a == 0:1 { drop; }
        put b = back[n] -> ip.src, tcp.sport;
        put c = next[] -> n + 1:16;
        q = n;
      }
    }
    ip.sum = adjust(adjust(ip.sum, cast(16, ip.src >> 16), 0xc000:16),
                    cast(16, ip.src), 0x0201:16);
    tcp.sum = adjust(adjust(adjust(tcp.sum, cast(16, ip.src >> 16), 0xc000:16),
                    cast(16, ip.src), 0x0201:16), tcp.sport, q);
    ip.src = 0xc0000201:32;
    tcp.sport = q;
    send 1:8;
  }
  if ip.dst != 0xc0000201:32 { drop; }
  look h, da, dp = back[tcp.dport];
  if h == 0:1 { drop; }
  ip.sum = adjust(adjust(ip.sum, cast(16, ip.dst >> 16), cast(16, da >> 16)),
                  cast(16, ip.dst), cast(16, da));
  tcp.sum = adjust(adjust(adjust(tcp.sum, cast(16, ip.dst >> 16), cast(16, da >> 16)),
                  cast(16, ip.dst), cast(16, da)), tcp.dport, dp);
  ip.dst = da;
  tcp.dport = dp;
  send 0:8;
}
";

/// The source of an address translator with its inside at port 0.
pub fn translator_source() -> &'static str
    ensures { result.now ≡ translator_text }
{
    SOURCE
}

/// The limits that it is split within.
pub fn translator_limits() -> Limits
    ensures { result ≡ translator_limits }
{
    Limits {
        table_bits: 100_000_000,
        stages: 32,
        writeback: 16,
        transfer_bytes: 64,
    }
}
