ghost use Rattle.program_shell.specs.Products.{one_file_product, report_product, product_value, two_file_product, output_value};
ghost use Rattle.std.specs.Prelude.{◌≡◌, IfOk, string_bytes};

use crate::failure::Step;
use design_model::{Bytes, Items, Memory};
use std::alloc::Global;

/// A file that a command writes: its name, and its content.
#[derive(Drop)]
pub struct Output<'a> {
    pub name: &'a str,
    pub content: Bytes,
}

/// The product of a command: its outputs in the order in which they are written, and its report.
#[derive(Drop)]
pub struct Product<'a> {
    pub outputs: Items<Output<'a>>,
    pub report: Bytes,
}

/// What an order makes: its product, or the failure for which there is none.
pub type Made<'a> = Step<'a, Product<'a>>;

/// Returns a product that writes no file.
pub fn only_report<'a>(alloc: Global, report: Bytes) -> Product<'a>
    ensures { product_value result ≡ report_product report }
{
    Product {
        outputs: Items::new(alloc),
        report,
    }
}

/// Returns a product that writes one file, of that name and content.
pub fn one_output<'a>(
    alloc: Global,
    name: &'a str,
    content: Bytes,
    report: Bytes,
) -> Result<Product<'a>, Memory>
    ensures { IfOk result (λ product. product_value product
        ≡ one_file_product name.now content report) }
{
    let mut outputs = Items::new(alloc);
    outputs.push(Output { name, content })?;
    Ok(Product { outputs, report })
}

/// Returns a product that writes two files, in this order.
pub fn two_outputs<'a>(
    alloc: Global,
    first: Output<'a>,
    second: Output<'a>,
    report: Bytes,
) -> Result<Product<'a>, Memory>
    ensures { IfOk result (λ product. product_value product
        ≡ two_file_product (output_value first.entry) (output_value second.entry) report) }
{
    let mut outputs = Items::new(alloc);
    outputs.push(first)?;
    outputs.push(second)?;
    Ok(Product { outputs, report })
}

/// Copies a text into a list of bytes.
pub fn bytes_of(alloc: Global, text: &[u8]) -> Result<Bytes, Memory>
    ensures { IfOk result (λ bytes. bytes ≡ text.now) }
{
    let mut bytes = Bytes::new(alloc);
    bytes.append(text)?;
    Ok(bytes)
}

/// Returns the bytes of a text, which are not copied.
pub fn text_bytes(text: String) -> Bytes
    ensures { result ≡ string_bytes text }
{
    Bytes::from_vec(text.into_bytes())
}
