//! The static library for C, and for languages that call C. It exports each call of `typst_html_ffi`
//! under its name.
#![tactic(auto)]

ghost use Rattle.std.specs.Prelude.{◌≡◌};
ghost use Rattle.typst_html_ffi.specs.Calls.{Writes, WritesDocument, WritesFragment};
ghost use Rattle.typst_html_ffi.specs.Calls.{ChecksPage, ListsDeadLinks, ListsLinks, ListsUnused};

use std::alloc::Global;
use typst_html_ffi::Reply;

/// Calls [`typst_html_ffi::typst_html_version`].
#[unsafe(no_mangle)]
pub extern "C" fn typst_html_version() -> u32
    ensures { result ≡ 8 }
{
    typst_html_ffi::typst_html_version()
}

/// Calls [`typst_html_ffi::typst_html_write`].
#[unsafe(no_mangle)]
pub extern "C" fn typst_html_write(
    alloc: Global,
    kind: u8,
    layout: u8,
    input: &[u8],
    output: &mut [u8],
) -> Reply
    ensures { Writes kind layout input.now output.old result output.new }
{
    typst_html_ffi::typst_html_write(alloc, kind, layout, input, output)
}

/// Calls [`typst_html_ffi::typst_html_document`].
#[unsafe(no_mangle)]
pub extern "C" fn typst_html_document(
    alloc: Global,
    layout: u8,
    links: u8,
    limit: u32,
    input: &[u8],
    output: &mut [u8],
) -> Reply
    ensures { WritesDocument layout links limit input.now output.old result output.new }
{
    typst_html_ffi::typst_html_document(alloc, layout, links, limit, input, output)
}

/// Calls [`typst_html_ffi::typst_html_fragment`].
#[unsafe(no_mangle)]
pub extern "C" fn typst_html_fragment(
    alloc: Global,
    level: u8,
    limit: u32,
    input: &[u8],
    output: &mut [u8],
) -> Reply
    ensures { WritesFragment level limit input.now output.old result output.new }
{
    typst_html_ffi::typst_html_fragment(alloc, level, limit, input, output)
}

/// Calls [`typst_html_ffi::typst_html_dead_links`].
#[unsafe(no_mangle)]
pub extern "C" fn typst_html_dead_links(
    alloc: Global,
    limit: u32,
    input: &[u8],
    output: &mut [u8],
) -> Reply
    ensures { ListsDeadLinks limit input.now output.old result output.new }
{
    typst_html_ffi::typst_html_dead_links(alloc, limit, input, output)
}

/// Calls [`typst_html_ffi::typst_html_unused`].
#[unsafe(no_mangle)]
pub extern "C" fn typst_html_unused(
    alloc: Global,
    limit: u32,
    input: &[u8],
    output: &mut [u8],
) -> Reply
    ensures { ListsUnused limit input.now output.old result output.new }
{
    typst_html_ffi::typst_html_unused(alloc, limit, input, output)
}

/// Calls [`typst_html_ffi::typst_html_check`].
#[unsafe(no_mangle)]
pub extern "C" fn typst_html_check(
    alloc: Global,
    limit: u32,
    page: &[u8],
    output: &mut [u8],
) -> Reply
    ensures { ChecksPage limit page.now output.old result output.new }
{
    typst_html_ffi::typst_html_check(alloc, limit, page, output)
}

/// Calls [`typst_html_ffi::typst_html_links`].
#[unsafe(no_mangle)]
pub extern "C" fn typst_html_links(
    alloc: Global,
    limit: u32,
    page: &[u8],
    output: &mut [u8],
) -> Reply
    ensures { ListsLinks limit page.now output.old result output.new }
{
    typst_html_ffi::typst_html_links(alloc, limit, page, output)
}
