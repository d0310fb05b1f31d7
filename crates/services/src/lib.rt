// The two services and their codes.

#![tactic(auto)]

ghost use Rattle.std.specs.Prelude.{◌≡◌};
ghost use Rattle.services.specs.Services.{code_for, service_for};

// Service 01 draws charges, service 04 pays out.
#[derive(Clone, Copy, Debug, PartialEq, Eq)]
pub enum Service {
    Autogiro,
    Remittance,
}

// The code of a service in field 2.
pub fn code_for(service: Service) -> u8
    ensures { result ≡ code_for service }
{
    match service {
        Service::Autogiro => 1,
        Service::Remittance => 4,
    }
}

// The service of a code that is one of the two.
pub fn service_for(code: u8) -> Service
    ensures { result ≡ service_for code }
{
    match code {
        1 => Service::Autogiro,
        _ => Service::Remittance,
    }
}
