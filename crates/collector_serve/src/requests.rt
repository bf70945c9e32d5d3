//! What a configuration says of requests to a backend.
ghost use Rattle.std.specs.Prelude.{◌≡◌, ◌<◌, IfOk};
ghost use Rattle.http1.specs.Head.{pairs};
ghost use Rattle.tsc_config.specs.Values.{InRange};
ghost use Rattle.collector_serve.specs.Requests.{export_room, request_fields};

use http1::Header;
use otlp_encoding::Encoding;
use std::alloc::{AllocError, Global};
use tsc_config::{Config, HeaderField};

/// The fields of each request in an encoding to a backend at this host and port, but for the length of its body: those of
/// its own, and then those of the configuration.
pub fn request_fields<'t>(
    alloc: Global,
    authority: &'t str,
    encoding: Encoding,
    headers: &'t [HeaderField],
) -> Result<Vec<Header<'t>>, AllocError>
    ensures { IfOk result (λ fields. pairs fields.items ≡ request_fields authority.now encoding headers.now) }
{
    let mut fields = Vec::new(alloc);
    fields.push(Header {
        name: b"Host",
        value: authority.as_bytes(),
    })?;
    fields.push(Header {
        name: b"Content-Type",
        value: encoding.media_type().as_bytes(),
    })?;
    // A configuration with one that would override these is refused (D-207).
    for header in headers {
        fields.push(Header {
            name: header.name.as_str().as_bytes(),
            value: header.value.as_str().as_bytes(),
        })?;
    }
    Ok(fields)
}

/// How many spans wait between a shard and the backend: the shard's share of `queue_batches` full batches, and at
/// least `export_capacity`.
fn export_room(config: &Config) -> usize
    requires shards { 0 < config.now.shards }
    requires capacity { 0 < config.now.export_capacity }
    ensures room { result ≡ export_room config.now }
    ensures some { 0 < result }
{
    // The exporter's queue is the one before the backend: a second one would hold lines twice (D-206).
    let spans = (config.export.queue_batches as usize).saturating_mul(config.send_batch_size);
    (spans / config.shards).max(config.export_capacity)
}

/// The configuration of a run whose lines are sent, with that room for spans that wait for the backend.
pub fn with_export_room(config: Config) -> Config
    requires { InRange config }
    ensures room { result ≡ record config { export_capacity = export_room config } }
    ensures ranges { InRange result }
{
    let mut config = config;
    config.export_capacity = export_room(&config);
    config
}
