// The words of code, each written once, in order.

ghost use Rattle.std.specs.Prelude.{◌≡◌, ◌<◌, ◌≤◌, ◌++◌, ◌^◌, length, map, IfOk, OnOk};
ghost use Rattle.std.specs.List.{AllByRecursion};
ghost use Rattle.rv_code.specs.Operands.{IsInRange};
ghost use Rattle.rv_code.specs.Table.{encoding};
ghost use Rattle.flat_code.specs.Codes.{function_at, operation_at};
ghost use Rattle.flat_code.specs.ProgramView.{program_code};
ghost use Rattle.stack_certificate.specs.Templates.{begin, end_stub, prologue, setting_at, template, IsFor};
ghost use Rattle.codegen_link.specs.Emission.{IsReady};
ghost use Rattle.codegen_link.specs.Layout.{function_code, functions_before};

use crate::layouts::Layout;
use crate::settings::{begins, setting};
use cap_word::Words;
use stack_certificate::{
    FunctionFact, Setting, fact_of, function_of, operation_size, operation_word, prologue_word,
    stub_word,
};
use std::alloc::{AllocError, Global};

// Adds the words of a prologue.
fn push_prologue(fact: &FunctionFact, params: u32, code: &mut Vec<u32>) -> Result<(), AllocError>
    requires few { params ≤ 6 }
    requires places { params ≤ length fact.now.places }
    requires fits { AllByRecursion IsInRange (prologue fact.now params) }
    ensures { OnOk result (code.new.items ≡ code.old.items ++ map encoding (prologue fact.now params)) }
{
    for word in 0..2 + params {
        code.push(prologue_word(fact, params, word).unwrap())?;
    }
    Ok(())
}

// Adds the words of an operation.
fn push_operation(
    layout: &Layout<'_>,
    function: u32,
    op: u32,
    setting: &Setting,
    code: &mut Vec<u32>,
) -> Result<(), AllocError>
    requires certificate { IsFor (program_code layout.now.flat.now) layout.now.certificate.now }
    requires function { function < length (program_code layout.now.flat.now).functions }
    requires op { op < length (function_at (program_code layout.now.flat.now) function).ops }
    requires setting { setting.now ≡ setting_at (program_code layout.now.flat.now) layout.now.certificate.now function (begin (program_code layout.now.flat.now) layout.now.certificate.now function op) (operation_at (program_code layout.now.flat.now) function op) }
    requires here { setting.now.here < 2 ^ 58 }
    requires to { setting.now.to < 2 ^ 60 }
    requires fits { AllByRecursion IsInRange (template (program_code layout.now.flat.now) layout.now.certificate.now function op) }
    ensures { OnOk result (code.new.items ≡ code.old.items ++ map encoding (template (program_code layout.now.flat.now) layout.now.certificate.now function op)) }
{
    let flat = layout.flat;
    let certificate = layout.certificate;
    let size = operation_size(flat, function, op, setting.kind);
    for word in 0..size {
        let encoded = operation_word(flat, certificate, function, op, setting, word);
        code.push(encoded.unwrap())?;
    }
    Ok(())
}

// Adds the words of a function.
fn push_function(
    alloc: Global,
    layout: &Layout<'_>,
    function: u32,
    code: &mut Vec<u32>,
) -> Result<(), AllocError>
    requires ready { IsReady (program_code layout.now.flat.now) layout.now.plan.now layout.now.certificate.now layout.now.needs.items layout.now.globals.items layout.now.tables.items }
    requires function { function < length (program_code layout.now.flat.now).functions }
    ensures { OnOk result (code.new.items ≡ code.old.items ++ map encoding (function_code (program_code layout.now.flat.now) layout.now.certificate.now function)) }
{
    let begins = begins(alloc, layout, function)?;
    let body = function_of(layout.flat, function);
    push_prologue(fact_of(layout.certificate, function), body.params, code)?;
    for op in 0..body.ops.len() {
        let setting = setting(layout, begins.as_slice(), function, op as u32);
        push_operation(layout, function, op as u32, &setting, code)?;
    }
    Ok(())
}

// The words of the end stub.
fn stub(alloc: Global) -> Result<Vec<u32>, AllocError>
    ensures { IfOk result (λ code. code.items ≡ map encoding end_stub) }
{
    let mut code = Vec::new(alloc);
    for word in 0..2 {
        code.push(stub_word(word).unwrap())?;
    }
    Ok(code)
}

// The words of all code.
pub(crate) fn code_of(alloc: Global, layout: &Layout<'_>) -> Result<Words, AllocError>
    requires ready { IsReady (program_code layout.now.flat.now) layout.now.plan.now layout.now.certificate.now layout.now.needs.items layout.now.globals.items layout.now.tables.items }
    ensures { IfOk result (λ code. code ≡ map encoding (functions_before (program_code layout.now.flat.now) layout.now.certificate.now (length (program_code layout.now.flat.now).functions))) }
{
    let mut code = stub(alloc)?;
    for function in 0..layout.flat.functions().len() {
        push_function(alloc, layout, function as u32, &mut code)?;
    }
    Ok(Words::new(code))
}
