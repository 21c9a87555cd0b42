// What the server tells of itself when it is initialized.
ghost use Rattle.std.specs.Prelude.{[], ◌∷◌, true, OnOk};
ghost use Rattle.json.specs.Token.{key, boolean};
ghost use Rattle.lsp_rpc.specs.Writing.{Appends, Adds};
ghost use Rattle.lsp_rpc.specs.Initialize as spec;

use crate::encoding::encoding_name;
use doc_text::Encoding;
use json::Writer;
use std::alloc::AllocError;

/// Writes the result of `initialize` (Language Server Protocol 3.17, "InitializeResult"), which names the position encoding.
pub fn write_initialize_result(out: &mut Writer, encoding: Encoding) -> Result<(), AllocError>
    ensures { OnOk result (Adds out.old (spec.initialize_result encoding) out.new) }
{
    out.begin_object()?;
    out.key("capabilities")?;
    write_capabilities(out, encoding)?;
    out.key("serverInfo")?;
    write_server_info(out)?;
    out.end_object()?;
    Ok(())
}

fn write_capabilities(out: &mut Writer, encoding: Encoding) -> Result<(), AllocError>
    ensures { OnOk result (Adds out.old (spec.capabilities encoding) out.new) }
{
    out.begin_object()?;
    write_yes(out, "definitionProvider")?;
    out.key("diagnosticProvider")?;
    write_diagnostic_options(out)?;
    out.key("positionEncoding")?;
    out.string(encoding_name(encoding))?;
    write_yes(out, "referencesProvider")?;
    write_yes(out, "renameProvider")?;
    out.key("textDocumentSync")?;
    write_sync_options(out)?;
    write_yes(out, "workspaceSymbolProvider")?;
    out.end_object()?;
    Ok(())
}

fn write_diagnostic_options(out: &mut Writer) -> Result<(), AllocError>
    ensures { OnOk result (Adds out.old spec.diagnostic_options out.new) }
{
    out.begin_object()?;
    write_yes(out, "interFileDependencies")?;
    write_yes(out, "workspaceDiagnostics")?;
    out.end_object()?;
    Ok(())
}

fn write_sync_options(out: &mut Writer) -> Result<(), AllocError>
    ensures { OnOk result (Adds out.old spec.sync_options out.new) }
{
    out.begin_object()?;
    out.key("change")?;
    out.u64(2)?;
    write_yes(out, "openClose")?;
    write_yes(out, "save")?;
    out.end_object()?;
    Ok(())
}

fn write_server_info(out: &mut Writer) -> Result<(), AllocError>
    ensures { OnOk result (Adds out.old spec.server_info out.new) }
{
    out.begin_object()?;
    out.key("name")?;
    out.string("protols")?;
    out.key("version")?;
    out.string("1")?;
    out.end_object()?;
    Ok(())
}

/// Writes a member that is true.
fn write_yes(out: &mut Writer, name: &str) -> Result<(), AllocError>
    ensures { OnOk result (Appends out.old (key name.now ∷ boolean true ∷ []) out.new) }
{
    out.key(name)?;
    out.boolean(true)?;
    Ok(())
}
